// The saved form of Philox4x32X8: 104 bytes, little-endian: key 4 + 4, stream 8, counter 8, mark 8 (1 if words wait, else 0), waiting words
// 64 and the first block of their group 8, zero if none wait. A form of 96 bytes, without that number, is moved to one of 104, and back.
ghost use Rattle.std.specs.Prelude.{◌≡◌};
ghost use Rattle.base.specs.Refusal.{answer_of, refusal_in};
ghost use Rattle.saved.specs.fields.Fields.{size_of, fields};
ghost use Rattle.saved.specs.fields.Saved.{Saved};
ghost use Rattle.saved.specs.philox4x32.Form.{layout, form_of, waiting_of, number_of, waiting_in, is_form, blank, parsed};
ghost use Rattle.saved.specs.philox4x32.Form.{is_numbered as numberedOf, loaded};
ghost use Rattle.saved.specs.philox4x32.Moves.{layout96, number_for, From96, To96};

use base::refusal::Refusal;
use philox::draws;
use philox::x8::Philox4x32X8;
use slices::bytes;

// The words that wait, zeros if none do.
fn waiting_of(g: Philox4x32X8) -> [u64; 8]
    ensures { result ≡ waiting_of g }
{
    if g.waiting { g.pending } else { [0; 8] }
}

// The first block of their group, 0 if none do.
fn number_of(g: Philox4x32X8) -> u64
    ensures { result ≡ number_of g }
{
    if g.waiting { g.first } else { 0 }
}

// Writes the form of `g`. Refused with 1, and nothing is written, where `form` has another length than 104.
pub fn save(g: Philox4x32X8, form: &mut [u8]) -> Result<(), Refusal>
    ensures { Saved (size_of layout) (form_of g) form.old form.new (refusal_in result) }
{
    if form.len() != 104 {
        return Err(Refusal::FormLength);
    }
    bytes::put_word(form, 0, bytes::pair(g.key[0], g.key[1]));
    bytes::put_word(form, 8, g.stream);
    bytes::put_word(form, 16, g.counter);
    bytes::put_word(form, 24, u64::from(g.waiting));
    bytes::put_words(form, 32, waiting_of(g));
    bytes::put_word(form, 96, number_of(g));
    Ok(())
}

// The eight words of a form that wait.
fn waiting_in(form: &[u8]) -> [u64; 8]
    ensures { result ≡ waiting_in (fields layout form.now) }
{
    std::array::from_fn(|i| bytes::word_at(form, 32 + i * 8))
}

// Whether the mark is 1, or 0 with no word that waits and no number.
fn is_form(mark: u64, pending: [u64; 8], number: u64) -> bool
    ensures { result ≡ is_form mark pending number }
{
    (mark == 1) | ((mark == 0) & (pending == [0; 8]) & (number == 0))
}

// The generator that the bytes of a form tell, whatever words wait in it. Refused with 1 where the form has another length than 104, with 2
// where its mark is neither 0 nor 1, or is 0 and a waiting byte or the number isn't zero.
pub fn parse(form: &[u8]) -> Result<Philox4x32X8, Refusal>
    ensures { answer_of blank result ≡ parsed form.now }
{
    if form.len() != 104 {
        return Err(Refusal::FormLength);
    }
    let seed = bytes::word_at(form, 0);
    let lo = words::low(seed);
    let hi = words::high(seed);
    let stream = bytes::word_at(form, 8);
    let counter = bytes::word_at(form, 16);
    let mark = bytes::word_at(form, 24);
    let pending = waiting_in(form);
    let first = bytes::word_at(form, 96);
    if !is_form(mark, pending, first) {
        return Err(Refusal::FormMark);
    }
    Ok(Philox4x32X8 {
        key: [lo, hi],
        stream,
        counter,
        waiting: mark == 1,
        pending,
        first,
    })
}

// Whether the words that wait, if any do, are the upper words of the numbered group.
pub fn is_numbered(g: Philox4x32X8) -> bool
    ensures { result ≡ numberedOf g }
{
    !g.waiting || g.pending == draws::upper_words(g, g.first)
}

// The generator of a form. Refused as by `parse`, and then with 14 where the words that wait aren't the upper words of the numbered group.
pub fn load(form: &[u8]) -> Result<Philox4x32X8, Refusal>
    ensures { answer_of blank result ≡ loaded form.now }
{
    let rng = parse(form)?;
    if !is_numbered(rng) {
        return Err(Refusal::OtherWords);
    }
    Ok(rng)
}

// The number that a form of 96 bytes gets: if words wait, the block eight before the counter.
fn number_for(old: &[u8]) -> u64
    ensures { result ≡ number_for (fields layout96 old.now) }
{
    if bytes::word_at(old, 24) == 1 {
        bytes::word_at(old, 16).wrapping_sub(8)
    } else {
        0
    }
}

// Moves a form of 96 bytes to one of 104: its number is put last. Refused, and nothing is written, with 1 where a length is another, else
// with 2 or 14 as `load` refuses the form with that number.
pub fn from_96(old: &[u8], form: &mut [u8]) -> Result<(), Refusal>
    ensures { From96 old.now form.old form.new (refusal_in result) }
{
    if form.len() != 104 || old.len() != 96 {
        return Err(Refusal::FormLength);
    }
    let mut moved = [0u8; 104];
    moved[..96].copy_from_slice(old);
    bytes::put_word(&mut moved, 96, number_for(old));
    load(&moved)?;
    form.copy_from_slice(&moved);
    Ok(())
}

// Moves a form of 104 bytes to one of 96: its number is dropped. Refused, and nothing is written, with 1 where a length is another, else
// with 2 or 14 as `load` refuses it.
pub fn to_96(form: &[u8], old: &mut [u8]) -> Result<(), Refusal>
    ensures { To96 form.now old.old old.new (refusal_in result) }
{
    if old.len() != 96 {
        return Err(Refusal::FormLength);
    }
    load(form)?;
    old.copy_from_slice(&form[..96]);
    Ok(())
}
