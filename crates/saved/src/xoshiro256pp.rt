// The saved form of the eight-lane xoshiro256++: 256 bytes, row 0 lanes 0 to 7, then rows 1 to 3, little-endian.
ghost use Rattle.std.specs.Prelude.{◌≡◌, ◌<◌};
ghost use Rattle.base.specs.Refusal.{answer_of, refusal_in};
ghost use Rattle.saved.specs.fields.Fields.{size_of, fields};
ghost use Rattle.saved.specs.fields.Saved.{Saved};
ghost use Rattle.saved.specs.xoshiro256pp.Form.{layout, form_of, lane_in, loaded};
ghost use Rattle.xoshiro.specs.x8.Calls.{blank8};

use base::refusal::Refusal;
use slices::bytes;
use xoshiro::scalar::Xoshiro256pp;
use xoshiro::x8::Xoshiro256ppX8;

// Writes the form of `g`. Refused with 1, and nothing is written, where `form` has another length than 256.
pub fn save(g: Xoshiro256ppX8, form: &mut [u8]) -> Result<(), Refusal>
    ensures { Saved (size_of layout) (form_of g) form.old form.new (refusal_in result) }
{
    if form.len() != 256 {
        return Err(Refusal::FormLength);
    }
    bytes::put_words(form, 0, g.s0);
    bytes::put_words(form, 64, g.s1);
    bytes::put_words(form, 128, g.s2);
    bytes::put_words(form, 192, g.s3);
    Ok(())
}

// Lane `i` of a form: one word of each row.
fn lane_in(form: &[u8], i: usize) -> Xoshiro256pp
    requires { i < 8 }
    ensures { result ≡ lane_in (fields layout form.now) i }
{
    let at = i * 8;
    let s0 = bytes::word_at(form, at);
    let s1 = bytes::word_at(form, 64 + at);
    let s2 = bytes::word_at(form, 128 + at);
    let s3 = bytes::word_at(form, 192 + at);
    Xoshiro256pp {
        s: [s0, s1, s2, s3],
    }
}

// The generator of a form. Refused with 1 where the form has another length than 256, with 3 where a lane is four zero words.
pub fn load(form: &[u8]) -> Result<Xoshiro256ppX8, Refusal>
    ensures { answer_of blank8 result ≡ loaded form.now }
{
    if form.len() == 256 {
        Xoshiro256ppX8::from_lanes(std::array::from_fn(|i| lane_in(form, i)))
    } else {
        Err(Refusal::FormLength)
    }
}
