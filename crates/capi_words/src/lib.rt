// The calls for C and Rust that look at single words. They are a library of their own, so that in the machine's archive the decoder has one caller (docs/SPEED.md).
#![tactic(auto)]

ghost use Rattle.std.specs.Prelude.{◌≡◌};
ghost use Rattle.capi_words.specs.Words.{decode_call_of};

use answer::Refusal;
use isa::Instr;

pub fn bench_decode(word: u32) -> u32
    ensures { result ≡ decode_call_of word }
{
    let i = instruction::decode(word);
    if instruction::over_mask(i) {
        return Refusal::Unknown.number();
    }
    match i {
        Instr::Refused => Refusal::Unknown.number(),
        _ => 0,
    }
}
