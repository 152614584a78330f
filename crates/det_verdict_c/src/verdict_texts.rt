//! The lines of verdicts on a record that was checked.
ghost use Rattle.std.specs.Prelude.{◌≡◌, ◌+◌, ◌≤◌, ◌++◌, length, decimal};
ghost use Rattle.c_types.specs.CValues.{text_of};
ghost use Rattle.copies.specs.declared.check_verdict.CheckVerdict.TheVariants.{Genuine, Departs};
ghost use Rattle.copies.specs.verdict_text.Verdicts.{place_text, check_line};
ghost use Rattle.det_verdict_c.specs.Answers.{text_if};
ghost use Rattle.det_verdict_c.specs.Places.{difference_of};

use c_types::{DetPlace, DetText};
use copies::Difference;
use needs_text::ShortText;

fn difference(place: &DetPlace) -> Option<Difference>
    ensures { result ≡ difference_of place.now }
{
    match place.what {
        0 => Some(Difference::Header),
        1 => Some(Difference::Kind(place.number)),
        2 => Some(Difference::Time(place.number)),
        3 => Some(Difference::Samples(place.number)),
        4 => Some(Difference::Result(place.number)),
        5 => Some(Difference::Element {
            cycle: place.number,
            element: place.element,
        }),
        6 => Some(Difference::Output(place.number)),
        _ => None,
    }
}

fn push_numbered(text: &mut ShortText, word: &str, number: u32)
    requires { length text.old + length word.now ≤ 1000 }
    ensures text { text.new ≡ text.old ++ (word.now ++ decimal number) }
    ensures short { length text.new ≤ length text.old + length word.now + 20 }
{
    text.push(word);
    text.push_number(number as u64);
}

fn push_place(text: &mut ShortText, place: Difference)
    requires { length text.old ≤ 900 }
    ensures text { text.new ≡ text.old ++ place_text place }
    ensures short { length text.new ≤ length text.old + 50 }
{
    match place {
        Difference::Header => text.push("header"),
        Difference::Kind(frame) => push_numbered(text, "kind ", frame),
        Difference::Time(cycle) => push_numbered(text, "time ", cycle),
        Difference::Samples(cycle) => push_numbered(text, "samples ", cycle),
        Difference::Result(cycle) => push_numbered(text, "result ", cycle),
        Difference::Element { cycle, element } => {
            push_numbered(text, "element ", cycle);
            push_numbered(text, " ", element);
        }
        Difference::Output(cycle) => push_numbered(text, "output ", cycle),
    }
}

fn genuine(cycles: u32) -> ShortText
    ensures { result ≡ check_line (Genuine cycles) }
{
    let mut text = ShortText::new();
    push_numbered(&mut text, "genuine ", cycles);
    text.push("\n");
    text
}

fn departs(at: Difference) -> ShortText
    ensures { result ≡ check_line (Departs at) }
{
    let mut text = ShortText::new();
    text.push("departs ");
    push_place(&mut text, at);
    text.push("\n");
    text
}

/// The line of a record that is what its inputs give, by its number of cycles.
#[unsafe(no_mangle)]
pub extern "C" fn det_text_genuine(cycles: u32, text: &mut DetText)
    ensures { text_of text.new ≡ check_line (Genuine cycles) }
{
    text.set(genuine(cycles).as_slice());
}

/// The line of a record that isn't, by the first place of a difference.
#[unsafe(no_mangle)]
pub extern "C" fn det_text_departs(place: &DetPlace, text: &mut DetText)
    ensures { text_of text.new
        ≡ text_if (λ at. check_line (Departs at)) (difference_of place.now) }
{
    match difference(place) {
        Some(at) => text.set(departs(at).as_slice()),
        None => text.set(b""),
    }
}
