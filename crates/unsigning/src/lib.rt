// A message's TSIG read back, and the message without it (02, CR 3; RFC 8945, 4.3.2). Every value of every argument is accepted. The contracts are equations
// with the crate model's Signing.
#![tactic(auto)]

ghost use Rattle.std.specs.Prelude.{◌≡◌, ◌≤◌, length};
ghost use Rattle.model.specs.Signing.{removed, removed_in};
ghost use Rattle.octets.specs.Wrote.{Wrote};
ghost use Rattle.messages.specs.Scan.{LastAt};
ghost use Rattle.digests.specs.Left.{Left};
ghost use Rattle.unsigning.specs.Unsigning.{BackRead};

use digests::Refusal;
use tsig::{Signer, TsigFields};

// A message's TSIG: its owner name stands at `place`, where the message's last record begins.
#[derive(Clone, Copy)]
pub struct TsigRead {
    pub place: usize,
    pub fields: TsigFields,
}

// ── Reading back ────────────────────────────────────────────────────────────────────────────────────────────────────

// The TSIG of the message m. Refused, in this order, with SIZE (4), FORMAT (6), the latter too where no TSIG is well placed.
pub fn read_back(m: &[u8]) -> Result<TsigRead, Refusal>
    ensures { BackRead m.now result }
{
    let c = contents::read(m)?;
    let signer = c.signer;
    match signer {
        Signer::Nobody => Err(Refusal::Format),
        Signer::Ill => Err(Refusal::Format),
        Signer::Key { place, fields } => Ok(TsigRead { place, fields }),
    }
}

// ── Removing ────────────────────────────────────────────────────────────────────────────────────────────────────────

// The message m up to `place`, where its last record begins, with one additional record less in its header.
fn cut_into(buf: &mut [u8], m: &[u8], place: usize) -> usize
    requires { LastAt m.now place × (place ≤ length buf.old) }
    ensures { (result ≡ place) × Wrote (removed m.now) 0 buf.old buf.new result }
{
    digests::counted_into(buf, m, octets::u16_at(m, 10) - 1, place)
}

// The message m without its TSIG, one additional record less in its header, and its ID as it is. Refused, in this order, with SIZE (4), FORMAT (6), ROOM (8).
pub fn remove(m: &[u8], out: &mut [u8]) -> Result<usize, Refusal>
    ensures { Left (removed_in m.now (length out.old)) out.old out.new result }
{
    let tsig = read_back(m)?;
    if out.len() < tsig.place {
        return Err(Refusal::Room);
    }
    Ok(cut_into(out, m, tsig.place))
}
