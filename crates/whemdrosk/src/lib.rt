// What the calls for C do: a form's check, and a run of a form from its fresh state. Words, ends and masks are bytes, 4 to a number, most significant first.
#![tactic(auto)]

ghost use Rattle.std.specs.Prelude.{◌≡◌, ◌%◌, ◌≤◌, ◌<◌, [], length};
ghost use Rattle.blocks.specs.Refusals.{refusal_number};
ghost use Rattle.runs.specs.Runs.{written};
ghost use Rattle.whemdrosk.specs.Exports.{Checked, RanForm, packed_of, packed_ran, refusal_over, ran_over};

use blocks::Refusal;
use nets::Net;
use trace::numbers::Numbers;

// The refusal of a form, or 0.
pub fn whemdrosk_check(form: &[u8]) -> u32
    ensures { Checked form.now result }
{
    let loading = forms::load(form);
    loading.refusal as u32
}

// A run's answer in 64 bits, from the most significant one: refusal 8, ending 1, cycles 26, records 29.
fn packed(refusal: u8, ending: u8, cycles: u32, records: u32) -> u64
    requires { (ending ≤ 1) × (cycles < 67108864) × (records < 536870912) }
    ensures { result ≡ packed_of refusal ending cycles records }
{
    ((refusal as u64 * 2 + ending as u64) * 67108864 + cycles as u64) * 536870912 + records as u64
}

// The packed answer of a refused run.
fn refused(refusal: Refusal) -> u64
    ensures { result ≡ packed_of (refusal_number refusal) 0 0 0 }
{
    packed(refusal.number(), 0, 0, 0)
}

// The masks, or none of them where they are no whole numbers.
fn whole(masks: &[u8]) -> &[u8]
    ensures yes { length masks.now % 4 ≡ 0 → result.now ≡ masks.now }
    ensures no { (length masks.now % 4 ≡ 0 → ⊥) → result.now ≡ [] }
{
    if masks.len() % 4 == 0 {
        masks
    } else {
        &masks[..0]
    }
}

// The packed answer of a run of a net from its fresh state. Masks that are no whole numbers earn 15, unless the run without masks earns a refusal that comes before.
// stays: hands on what a call takes, as the call takes it.
fn run_bytes(net: Net, words: &[u8], ends: &[u8], masks: &[u8], trace: &mut [u8]) -> u64
    ensures value { result ≡ packed_ran (refusal_over net words.now ends.now masks.now) (ran_over net words.now ends.now masks.now (length trace.old)) }
    ensures trace_after { trace.new ≡ written (ran_over net words.now ends.now masks.now (length trace.old)).records trace.old }
{
    if words.len() % 4 != 0 || ends.len() % 4 != 0 {
        return refused(Refusal::Streams);
    }
    let begun = sim::step::fresh(net);
    let state = begun.state;
    let words = Numbers::of_bytes(words);
    let ends = Numbers::of_bytes(ends);
    let lent = Numbers::of_bytes(whole(masks));
    let ran = runs::many::run_given(net, state, words, ends, lent, trace);
    if masks.len() % 4 != 0 {
        if ran.refusal != 0 {
            return packed(ran.refusal, 0, 0, 0);
        }
        return refused(Refusal::Masks);
    }
    packed(ran.refusal, ran.ending, ran.cycles, ran.records)
}

// A run of a form from its fresh state; the answer is packed. Refused in this order: 1 to 11 (the form), 14 (words, then ends), 15 (masks), 16 (the number of cycles).
// stays: the parameters of a public call stay as they were.
pub fn whemdrosk_run(form: &[u8], words: &[u8], ends: &[u8], masks: &[u8], trace: &mut [u8]) -> u64
    ensures { RanForm form.now words.now ends.now masks.now trace.old result trace.new }
{
    let loading = forms::load(form);
    if loading.refusal != 0 {
        return packed(loading.refusal, 0, 0, 0);
    }
    let net = loading.net;
    run_bytes(net, words, ends, masks, trace)
}
