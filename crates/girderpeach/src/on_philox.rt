// The work of the calls on the form of a Philox generator.
ghost use Rattle.std.specs.Prelude.{◌≡◌};
ghost use Rattle.base.specs.Refusal.{refusal_in};
ghost use Rattle.girderpeach.specs.Host.{answer_of, answered};
ghost use Rattle.girderpeach.specs.Philox.{Filled, Sought, Skipped, draws_left, Labelled};

use base::refusal::Refusal;
use fills::kinds;
use saved::philox4x32;

pub fn fill(form: &mut [u8], kind: u64, out: &mut [u8]) -> Result<i64, Refusal>
    ensures { Filled form.old kind out.old (answered result) form.new out.new }
{
    let rng = philox4x32::parse(form)?;
    // a kind and a length are refused before other words, and before these are looked at, which takes eight blocks
    kinds::check(kind, out.len())?;
    if !philox4x32::is_numbered(rng) {
        return Err(Refusal::OtherWords);
    }
    let fill = philox_fills::bytes::fill_bytes(rng, kind, out)?;
    philox4x32::save(fill.rng, form)?;
    Ok(fill.draws as i64)
}

pub fn seek(form: &mut [u8], block: u64) -> Result<(), Refusal>
    ensures { Sought block form.old (answer_of (refusal_in result) 0) form.new }
{
    let rng = philox4x32::load(form)?;
    philox4x32::save(rng.seek(block), form)
}

pub fn skip(form: &mut [u8], draws: u64) -> Result<(), Refusal>
    ensures { Skipped draws form.old (answer_of (refusal_in result) 0) form.new }
{
    let rng = philox4x32::load(form)?;
    philox4x32::save(rng.skip(draws), form)
}

pub fn draws_left(form: &[u8]) -> Result<i64, Refusal>
    ensures { answered result ≡ draws_left form.now }
{
    let rng = philox4x32::load(form)?;
    Ok(rng.draws_left() as i64)
}

pub fn label(form: &[u8], first: &mut u64) -> Result<i64, Refusal>
    ensures { Labelled form.now first.old (answered result) first.new }
{
    let label = philox4x32::load(form)?.label();
    *first = label.first;
    Ok(i64::from(label.upper))
}
