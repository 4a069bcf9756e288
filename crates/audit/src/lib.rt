// The audit: bytes in flight by the packet records themselves, over a slice of them that the caller lends. 01 Replay and the host.
#![tactic(auto)]

ghost use Rattle.std.specs.Prelude.{◌≡◌, [], ◌∷◌};
ghost use Rattle.model.specs.Connection.{outstanding};
ghost use Rattle.audit.specs.Total.{total_of};

use arith::refusal::Refusal;
use arith::time::add_up;
use model::Sent;

// The bytes of one record that are still out: its size if it is in flight and neither acked nor lost, else 0.
#[tactic(auto, unfolding(model::specs::Connection::outstanding))]
fn weight(r: &Sent) -> u64
    ensures { result ≡ outstanding (r.now ∷ []) }
{
    if r.in_flight && !r.acked && r.time_lost.is_none() {
        r.size
    } else {
        0
    }
}

// The bytes of all records that are still out, or that they pass 2^53-1.
#[tactic(auto, using(crate::proofs::Laws::scan_small, crate::proofs::Laws::scan_on))]
pub fn audit(records: &[Sent]) -> Result<u64, Refusal>
    ensures { result ≡ total_of records.now }
{
    let mut total = 0;
    for r in records {
        total = add_up(total, weight(r))?;
    }
    Ok(total)
}
