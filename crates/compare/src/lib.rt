// Two recordings side by side: a channel's words out of a trace, how two lists of words compare, and the rest that is not matched.
#![tactic(auto)]

ghost use Rattle.std.specs.Prelude.{◌≡◌};
ghost use Rattle.compare.specs.Compare.{shared, compared_of, Says, rest_by, IsRest};

mod gathering;

pub use gathering::gather;

// What gathering answers: its refusal, or 0, and the number of words.
#[derive(Clone, Copy)]
pub struct Gathered {
    // stays: what stands beside a refusal is promised too (`gathered_of`: count 0).
    pub refusal: u8,
    // stays: the count is the answer; the words are in the lent list.
    pub count: usize,
}

// How two lists of words compare; `Says` (specs/Compare.antt) states what each case says of them.
#[derive(Clone, Copy, PartialEq, Eq)]
pub enum Compared {
    Equal,
    FirstBegins,
    SecondBegins,
    Differ(usize),
}

// How many words the two lists share from the front.
fn common(a: &[u32], b: &[u32]) -> usize
    ensures { result ≡ shared a.now b.now }
{
    a.iter().zip(b).take_while(|(x, y)| x == y).count()
}

// How the first list compares with the second.
pub fn compare(a: &[u32], b: &[u32]) -> Compared
    ensures answer { result ≡ compared_of a.now b.now }
    ensures says { Says a.now b.now result }
{
    let n = common(a, b);
    if n < a.len() {
        if n < b.len() {
            Compared::Differ(n)
        } else {
            Compared::SecondBegins
        }
    } else if n < b.len() {
        Compared::FirstBegins
    } else {
        Compared::Equal
    }
}

// The unmatched rest of the longer list, as a part of that list. Of equal lists it is the empty end of the first, and of lists that differ the first from the first
// difference on. A caller that holds its two lists by references has to take both for one lifetime, as this function does.
pub fn rest<'a>(a: &'a [u32], b: &'a [u32]) -> &'a [u32]
    ensures { IsRest (rest_by (compared_of a.now b.now) a.entry b.entry) result }
{
    let n = common(a, b);
    if n < a.len() {
        return &a[n..];
    }
    if n < b.len() {
        return &b[n..];
    }
    &a[n..]
}
