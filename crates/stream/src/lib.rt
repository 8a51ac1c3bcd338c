// The questions on standard input (document 01: "each as length (2) and bytes").
#![tactic(auto)]

ghost use Rattle.std.specs.Prelude.{◌≡◌, ◌-◌, ◌≤◌, ◌<◌, length, take, drop};
ghost use Rattle.stream.specs.Stream.{front};
ghost use Rattle.stream.specs.Next.{next_of};

// What comes next: a question of this length, whose bytes stand after the two of the length; a question that the input's end has cut; the
// input's end; or, as the bytes at hand are no whole question and the input goes on, more of it.
#[derive(Drop)]
pub enum Next {
    Question(usize),
    Cut,
    End,
    More,
}

// A part of a question is cut where the input has ended.
#[tactic(auto, unfolding(crate::specs::Next::next_of))]
fn part(ended: bool) -> Next
    ensures { result ≡ next_of Rattle.stream.specs.Stream.part ended }
{
    if ended { Next::Cut } else { Next::More }
}

// What comes next, of the bytes at hand. Where it is more, a buffer of 65,537 bytes has room for it.
#[tactic(auto, using(crate::proofs::Fronts::next_laws))]
pub fn next_item(bytes: &[u8], ended: bool) -> Next
    ensures value { result ≡ next_of (front bytes.now) ended }
    ensures more_fits { result ≡ Next.More → length bytes.now < 65537 }
{
    if bytes.is_empty() {
        if ended {
            return Next::End;
        }
        return Next::More;
    }
    if bytes.len() < 2 {
        return part(ended);
    }
    let n = values::number_at::<2>(bytes, 0) as usize;
    if n <= bytes.len() - 2 {
        return Next::Question(n);
    }
    part(ended)
}

// The bytes from `from` to `to` are moved to the front.
pub fn shift(buffer: &mut [u8], from: usize, to: usize) -> usize
    requires { (from ≤ to) × (to ≤ length buffer.old) }
    ensures { (result ≡ to - from) × (take (to - from) buffer.new ≡ take (to - from) (drop from buffer.old)) }
{
    if from != 0 {
        buffer.copy_within(from..to, 0);
    }
    to - from
}
