// What stands at an offset of a trace. 01 'Replay and the host'.
ghost use Rattle.std.specs.Prelude.{[], ◌≡◌, ◌+◌, ◌≤◌, ◌<◌, IsTrue, length, drop};
ghost use Rattle.model.specs.Trace.{big_endian, body_length, sent_of, ack_of, event_of};
ghost use Rattle.trace.specs.Reading.{event_read, range_of, whole, found_from, found_at, kind_at, body_from, next_at};

use crate::{AckEvent, DiscardEvent, Event, Found, Range, SentEvent, TimeoutEvent};
use arith::time::Moment;
use model::coded::{is_odd, packet_of, skipped_of};

// The length of a kind's body; 0 for an unknown kind.
#[tactic(auto, unfolding(model::specs::Trace::body_length))]
pub fn body_length(kind: u8) -> usize
    ensures { result ≡ body_length kind }
{
    match kind {
        1 => 29,
        2 => 16,
        3 => 27,
        4 => 9,
        5 => 10,
        6 => 2,
        7..=9 => 1,
        _ => 0,
    }
}

// The number in so many bytes, big-endian.
#[tactic(auto, unfolding(model::specs::Trace::big_endian))]
fn number(bytes: &[u8]) -> u64
    requires { length bytes.now ≤ 8 }
    ensures { result ≡ big_endian 0 bytes.now }
{
    let mut n = 0;
    for &b in bytes {
        n = 256 * n + u64::from(b);
    }
    n
}

// 1 sent: now 8, space 1, number 8, size 2, flags 1, handle 8, status 1.
#[tactic(auto, using(crate::proofs::Fields::one_byte), unfolding(crate::specs::Reading::event_read, model::specs::Trace::sent_of))]
fn sent(body: &[u8]) -> SentEvent
    requires { length body.now ≡ 29 }
    ensures { Event.Sent result ≡ event_read (sent_of body.now) }
{
    SentEvent {
        time: Moment(number(&body[..8])),
        space: number(&body[8..9]),
        packet: packet_of(
            number(&body[9..17]),
            number(&body[17..19]),
            body[19],
            number(&body[20..28]),
        ),
        status: body[28].into(),
    }
}

// 2 range: start 8, end 8.
#[tactic(auto, unfolding(crate::specs::Reading::range_of, model::specs::Trace::body_length))]
fn range(body: &[u8]) -> Range
    requires { length body.now ≡ body_length 2 }
    ensures { result ≡ range_of body.now }
{
    Range {
        start: number(&body[..8]),
        end: number(&body[8..]),
    }
}

// 3 ack: now 8, space 1, delay µs 8, status 1, limited 1, skipped 8.
#[tactic(auto, unfolding(crate::specs::Reading::event_read, model::specs::Trace::ack_of))]
fn ack(body: &[u8]) -> AckEvent
    requires { length body.now ≡ 27 }
    ensures { Event.Ack result ≡ event_read (ack_of [] body.now) }
{
    AckEvent {
        time: Moment(number(&body[..8])),
        space: number(&body[8..9]),
        delay: number(&body[9..17]),
        status: body[17].into(),
        limited: is_odd(body[18]),
        skipped: skipped_of(number(&body[19..])),
    }
}

// 4 timeout: now 8, status 1.
#[tactic(auto, unfolding(crate::specs::Reading::event_read, model::specs::Trace::event_of))]
fn timeout(body: &[u8]) -> TimeoutEvent
    requires { length body.now ≡ 9 }
    ensures { Event.Timeout result ≡ event_read (event_of 4 [] body.now) }
{
    TimeoutEvent {
        time: Moment(number(&body[..8])),
        status: body[8].into(),
    }
}

// 5 discard: now 8, space 1, status 1.
#[tactic(auto, unfolding(crate::specs::Reading::event_read, model::specs::Trace::event_of))]
fn discard(body: &[u8]) -> DiscardEvent
    requires { length body.now ≡ 10 }
    ensures { Event.Discard result ≡ event_read (event_of 5 [] body.now) }
{
    DiscardEvent {
        time: Moment(number(&body[..8])),
        space: number(&body[8..9]),
        status: body[9].into(),
    }
}

// The event of a kind with its whole body. 6 size 2; 7, 8, 9: take acked, take lost, ping; space 1.
#[tactic(auto, unfolding(crate::specs::Reading::event_read, model::specs::Trace::event_of, model::specs::Trace::body_length))]
fn event(kind: u8, body: &[u8]) -> Event
    requires { (0 < body_length kind) × (length body.now ≡ body_length kind) }
    ensures { result ≡ event_read (event_of kind [] body.now) }
{
    match kind {
        1 => Event::Sent(sent(body)),
        3 => Event::Ack(ack(body)),
        4 => Event::Timeout(timeout(body)),
        5 => Event::Discard(discard(body)),
        6 => Event::Size(number(body)),
        7 => Event::TakeAcked(number(body)),
        8 => Event::TakeLost(number(body)),
        _ => Event::Ping(number(&body[..1])),
    }
}

// The bytes from an offset on, none past the end.
fn from(bytes: &[u8], at: usize) -> &[u8]
    ensures { result.now ≡ drop at bytes.now }
{
    bytes.get(at..).unwrap_or(&[])
}

// Whether a kind is known and as many bytes follow as its body has.
#[tactic(auto, unfolding(crate::specs::Reading::whole))]
fn is_whole(kind: u8, more: &[u8]) -> bool
    ensures whole { result ≡ whole kind more.now }
    ensures fits { IsTrue result → (0 < body_length kind) × (body_length kind ≤ length more.now) }
{
    let size = body_length(kind);
    0 < size && size <= more.len()
}

#[tactic(auto, unfolding(crate::specs::Reading::found_from, crate::specs::Reading::found_by))]
fn found(bytes: &[u8]) -> Found
    ensures { result ≡ found_from bytes.now }
{
    let [kind, more @ ..] = bytes else {
        return Found::End;
    };
    if !is_whole(*kind, more) {
        return Found::Bad;
    }
    let body = &more[..body_length(*kind)];
    if *kind == 2 {
        return Found::Range(range(body));
    }
    Found::Event(event(*kind, body))
}

#[tactic(auto, unfolding(crate::specs::Reading::body_from))]
fn body_size(bytes: &[u8]) -> usize
    ensures size { result ≡ body_from bytes.now }
    ensures inside { 0 < result → result < length bytes.now }
{
    let [kind, more @ ..] = bytes else {
        return 0;
    };
    if is_whole(*kind, more) {
        body_length(*kind)
    } else {
        0
    }
}

// The kind byte at an offset, 0 past the end.
pub fn kind_at(bytes: &[u8], at: usize) -> u8
    ensures { result ≡ kind_at bytes.now at }
{
    bytes.get(at).copied().unwrap_or(0)
}

// What stands at an offset. 01 Replay and the host
pub fn find(bytes: &[u8], at: usize) -> Found
    ensures { result ≡ found_at bytes.now at }
{
    found(from(bytes, at))
}

// The offset after what stands at an offset; the end of the bytes where nothing does.
#[tactic(auto, unfolding(crate::specs::Reading::next_at, crate::specs::Reading::next_by))]
pub fn next(bytes: &[u8], at: usize) -> usize
    ensures { result ≡ next_at bytes.now at }
{
    let size = body_size(from(bytes, at));
    if size == 0 {
        bytes.len()
    } else {
        at + 1 + size
    }
}
