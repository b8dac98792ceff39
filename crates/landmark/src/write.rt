// Writing one element into a buffer.
ghost use Rattle.landmark.specs.Records.{Writes, as_two, body_of, item, put};
ghost use Rattle.std.specs.Prelude.{◌≡◌, ◌+◌, ◌≤◌, length};

use crate::element::Element;
use crate::refusal::{Fault, Refusal};

// Puts a number as two bytes, lowest first.
fn put_number(buffer: &mut [u8], at: usize, number: u16)
    requires { at + 2 ≤ length buffer.old }
    ensures { buffer.new ≡ put buffer.old at (as_two number) }
{
    buffer[at..at + 2].copy_from_slice(&number.to_le_bytes());
}

// Puts an element's body.
fn put_body(buffer: &mut [u8], at: usize, element: Element<'_>)
    requires { at + length (body_of (item element)) ≤ length buffer.old }
    ensures { buffer.new ≡ put buffer.old at (body_of (item element.entry)) }
{
    match element {
        Element::Start(role) => put_number(buffer, at, role as u16),
        Element::Run(bytes) => buffer[at..at + bytes.len()].copy_from_slice(bytes),
        Element::Gap(gap) => {
            put_number(buffer, at, gap.least);
            put_number(buffer, at + 2, gap.greatest);
        }
        Element::Star | Element::Any => {}
    }
}

// Writes the element's record at a place of the buffer, and answers the place after it.
pub fn write_element(buffer: &mut [u8], place: usize, element: Element<'_>) -> Result<usize, Fault>
    ensures { Writes buffer.old place (item element.entry) buffer.new result }
{
    let size = element.body_size().map_err(|refusal| refusal.at(place))?;
    if place > buffer.len() || buffer.len() - place < 4 + size as usize {
        return Err(Refusal::NoSpace.at(place));
    }
    put_number(buffer, place, 2 + size);
    put_number(buffer, place + 2, element.kind().number());
    put_body(buffer, place + 4, element);
    Ok(place + 4 + size as usize)
}
