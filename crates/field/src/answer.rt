// What an event answered, as words.
ghost use Rattle.trace.specs.Put.{Put};
ghost use Rattle.play.specs.Answers.{answered_says};
ghost use Rattle.field.specs.Inspect.{ack_words, timeout_words, told_words};

use crate::words::put_value_at;
use arith::refusal::Refusal;
use model::{OnAckReceivedOutcome, OnLossDetectionTimeoutOutcome};
use play::Told;

fn put_ack(out: &mut [u8], at: usize, tag: &[u8], o: OnAckReceivedOutcome) -> usize
    ensures { Put out.old at (ack_words tag.now o) out.new result }
{
    let at = put_value_at(out, at, tag, b"lost_packets", o.lost_packets);
    let at = put_value_at(out, at, tag, b"lost_bytes", o.lost_bytes);
    let at = put_value_at(out, at, tag, b"acked_bytes", o.acked_bytes);
    put_value_at(out, at, tag, b"spurious", o.spurious_losses)
}

fn put_timeout(out: &mut [u8], at: usize, tag: &[u8], o: OnLossDetectionTimeoutOutcome) -> usize
    ensures { Put out.old at (timeout_words tag.now o) out.new result }
{
    let at = put_value_at(out, at, tag, b"lost_packets", o.lost_packets);
    put_value_at(out, at, tag, b"lost_bytes", o.lost_bytes)
}

// What an accepted ack, timeout or take answered.
#[tactic(auto, using(trace::proofs::Puts::put_none), unfolding(crate::specs::Inspect::told_words))]
pub fn put_told(out: &mut [u8], at: usize, tag: &[u8], answered: Result<Told, Refusal>) -> usize
    ensures { Put out.old at (told_words tag.now (answered_says answered)) out.new result }
{
    match answered {
        Ok(Told::Ack(o)) => put_ack(out, at, tag, o),
        Ok(Told::Timeout(o)) => put_timeout(out, at, tag, o),
        Ok(Told::Handle(handle)) => put_value_at(out, at, tag, b"handle", handle),
        Ok(Told::Done) | Err(_) => at.min(out.len()),
    }
}
