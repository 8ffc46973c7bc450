// The exports for C that look at single words: each is `capi_words`'s call of the same name, under the same clauses.
#![tactic(auto)]

ghost use Rattle.std.specs.Prelude.{◌≡◌};
ghost use Rattle.capi_words.specs.Words.{decode_call_of};

#[unsafe(no_mangle)]
pub extern "C" fn bench_decode(word: u32) -> u32
    ensures { result ≡ decode_call_of word }
{
    capi_words::bench_decode(word)
}
