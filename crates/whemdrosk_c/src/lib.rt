// The calls for C, under their names for the linker: the crate `whemdrosk` does the work.
#![tactic(auto)]

ghost use Rattle.std.specs.Prelude.{◌≡◌};
ghost use Rattle.whemdrosk.specs.Exports.{Checked, RanForm};

// The refusal of a form, or 0.
#[unsafe(no_mangle)]
pub extern "C" fn whemdrosk_check(form: &[u8]) -> u32
    ensures { Checked form.now result }
{
    whemdrosk::whemdrosk_check(form)
}

// A run of a form from its fresh state; the answer is packed. Refused in this order: 1 to 11 (the form), 14 (words, then ends), 15 (masks), 16 (the number of cycles).
// stays: the parameters of a public call stay as they were.
#[unsafe(no_mangle)]
pub extern "C" fn whemdrosk_run(
    form: &[u8],
    words: &[u8],
    ends: &[u8],
    masks: &[u8],
    trace: &mut [u8],
) -> u64
    ensures { RanForm form.now words.now ends.now masks.now trace.old result trace.new }
{
    whemdrosk::whemdrosk_run(form, words, ends, masks, trace)
}
