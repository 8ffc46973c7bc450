// The exports for C of marking and the model sheet: each is `capi_sheet`'s call of the same name, under the same clauses.
#![tactic(auto)]

ghost use Rattle.std.specs.Prelude.{◌≡◌};
ghost use Rattle.sheet.specs.Mark.{lent_runs};
ghost use Rattle.capi_sheet.specs.Calls.{mark_called, mark_call_of, sheet_called, sheet_call_of};

#[unsafe(no_mangle)]
pub extern "C" fn bench_mark(
    card: &[u8],
    kernel: &[u32],
    vector: &mut [u32],
    bytes: &mut [u8],
    sheet: &[u8],
    res: &mut [u32],
) -> u32
    ensures { mark_called result res.new (lent_runs vector.new bytes.new) ≡ mark_call_of card.now kernel.now vector.old bytes.old sheet.now res.old }
{
    capi_sheet::bench_mark(card, kernel, vector, bytes, sheet, res)
}

#[unsafe(no_mangle)]
pub extern "C" fn bench_sheet(
    card: &[u8],
    kernel: &[u32],
    vector: &mut [u32],
    bytes: &mut [u8],
    target: &mut [u8],
    written: &mut [u32],
) -> u32
    ensures { sheet_called result written.new target.new (lent_runs vector.new bytes.new) ≡ sheet_call_of card.now kernel.now vector.old bytes.old target.old written.old }
{
    capi_sheet::bench_sheet(card, kernel, vector, bytes, target, written)
}
