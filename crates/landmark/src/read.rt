// Reading one element of a list.
ghost use Rattle.landmark.specs.Records.{Gives, Reads, bare, gap_of, item, item_of, run_of, start_of, two_bytes};
ghost use Rattle.std.specs.Prelude.{◌≡◌, ◌+◌, ◌≤◌, length};

use crate::element::{Element, Gap, Read, Role};
use crate::kind::Kind;
use crate::refusal::{Fault, Refusal};

// The two-byte number at a place, lowest byte first.
fn number_at(bytes: &[u8], at: usize) -> u16
    requires { at + 2 ≤ length bytes.now }
    ensures { result ≡ two_bytes bytes.now at }
{
    u16::from_le_bytes([bytes[at], bytes[at + 1]])
}

// A start, of its role.
fn read_start<'a>(body: &'a [u8]) -> Result<Element<'a>, Refusal>
    ensures { Gives (start_of body.now) result }
{
    let [low, high] = *body else {
        return Err(Refusal::WrongBodySize);
    };
    let role = Role::try_from(u16::from_le_bytes([low, high]))?;
    Ok(Element::Start(role))
}

// A run, of its bytes.
fn read_run<'a>(body: &'a [u8]) -> Result<Element<'a>, Refusal>
    ensures { Gives (run_of body.now) result }
{
    let run = Element::Run(body);
    run.body_size()?;
    Ok(run)
}

// A gap, of its least and its greatest count.
fn read_gap<'a>(body: &'a [u8]) -> Result<Element<'a>, Refusal>
    ensures { Gives (gap_of body.now) result }
{
    let [a, b, c, d] = *body else {
        return Err(Refusal::WrongBodySize);
    };
    let gap = Element::Gap(Gap {
        least: u16::from_le_bytes([a, b]),
        greatest: u16::from_le_bytes([c, d]),
    });
    gap.body_size()?;
    Ok(gap)
}

// A star or an any: a record without a body.
fn read_bare<'a>(body: &'a [u8], element: Element<'a>) -> Result<Element<'a>, Refusal>
    ensures { Gives (bare (item element.entry) body.now) result }
{
    if !body.is_empty() {
        return Err(Refusal::WrongBodySize);
    }
    Ok(element)
}

// The element that a kind and a body stand for.
fn read_body<'a>(kind: u16, body: &'a [u8]) -> Result<Element<'a>, Refusal>
    ensures { Gives (item_of kind body.now) result }
{
    match Kind::try_from(kind)? {
        Kind::Start => read_start(body),
        Kind::Run => read_run(body),
        Kind::Gap => read_gap(body),
        Kind::Star => read_bare(body, Element::Star),
        Kind::Any => read_bare(body, Element::Any),
    }
}

// The element at a place of the list, with that place and the place after it.
#[inline(always)]
pub fn read_element<'a>(list: &'a [u8], place: usize) -> Result<Read<'a>, Fault>
    ensures { Reads list.now place result }
{
    if place > list.len() || list.len() - place < 2 {
        return Err(Refusal::CutRecord.at(place));
    }
    let size = number_at(list, place) as usize;
    if list.len() - place - 2 < size {
        return Err(Refusal::CutRecord.at(place));
    }
    if size < 2 {
        return Err(Refusal::UnknownRecord.at(place));
    }
    let next = place + 2 + size;
    let kind = number_at(list, place + 2);
    let body = &list[place + 4..next];
    let element = read_body(kind, body).map_err(|refusal| refusal.at(place))?;
    Ok(Read {
        place,
        element,
        next,
    })
}
