// What standard error gets of a status.
ghost use Rattle.std.specs.Prelude.{◌≡◌, ◌<◌, ◌++◌, false, codes};
ghost use Rattle.std.specs.Fmt.{digit_glyph};
ghost use Rattle.table_dump.specs.Texts.{hex};
ghost use Rattle.eh_commands.specs.Answer.{Reports};
ghost use Rattle.eh_commands.specs.Status.{at_place, differing, text_of_status};
ghost use Rattle.eh_commands.specs.Report.{Says};

use crate::status::Status;
use eh_outer::Sink;
use itoa::Buffer;

// Puts some bytes; false where the sink failed.
fn say_bytes<Er: Sink>(err: &mut Er, bytes: &[u8]) -> bool
    ensures { Says bytes.now (Er.view err.old) (Er.view err.new) result }
{
    err.put(bytes).is_ok()
}

// Puts a text; false where the sink failed.
fn say<Er: Sink>(err: &mut Er, text: &str) -> bool
    ensures { Says text.now (Er.view err.old) (Er.view err.new) result }
{
    say_bytes(err, text.as_bytes())
}

// Puts a front, a name and a line feed.
fn say_name<Er: Sink>(err: &mut Er, front: &str, name: &str) -> bool
    ensures { Says (front.now ++ name.now ++ codes "\n") (Er.view err.old) (Er.view err.new) result }
{
    say(err, front) && say(err, name) && say(err, "\n")
}

// Puts a front, the number of a refusal and its place.
fn say_place<Er: Sink>(err: &mut Er, front: &str, number: u8, place: u64) -> bool
    ensures { Says (at_place front.now number place) (Er.view err.old) (Er.view err.new) result }
{
    let mut numbers = Buffer::new();
    let mut places = Buffer::new();
    say(err, front)
        && say(err, numbers.format(number))
        && say(err, " at ")
        && say(err, places.format(place))
}

// Puts the refusal of a source or of a schedule.
fn say_refusal<Er: Sink>(err: &mut Er, front: &str, number: u8, place: u32) -> bool
    ensures { Says (at_place front.now number place ++ codes "\n") (Er.view err.old) (Er.view err.new) result }
{
    say_place(err, front, number, u64::from(place)) && say(err, "\n")
}

// The character of a hexadecimal digit.
fn glyph(digit: u8) -> u8
    requires { digit < 16 }
    ensures { result ≡ digit_glyph false digit }
{
    if digit < 10 {
        b'0' + digit
    } else {
        b'a' + (digit - 10)
    }
}

// Puts a number with its hexadecimal digits, the least significant found first.
fn say_hex<Er: Sink>(err: &mut Er, number: u64) -> bool
    ensures { Says (hex number) (Er.view err.old) (Er.view err.new) result }
{
    let mut text = [0u8; 16];
    let mut start = 16;
    let mut rest = number;
    while rest >= 16 {
        start -= 1;
        text[start] = glyph((rest % 16) as u8);
        rest /= 16;
    }
    start -= 1;
    text[start] = glyph(rest as u8);
    say(err, "0x") && say_bytes(err, &text[start..])
}

// Puts the two locations of a table that is not the list of the frames.
fn say_differing<Er: Sink>(err: &mut Er, number: u8, location: u64, other: u64) -> bool
    ensures { Says (differing number location other) (Er.view err.old) (Er.view err.new) result }
{
    if number == 59 {
        say(err, ", ") && say_hex(err, location) && say(err, " ") && say_hex(err, other)
    } else {
        say(err, "")
    }
}

// Puts the refusal of an image.
fn say_image<Er: Sink>(
    err: &mut Er,
    front: &str,
    number: u8,
    place: u64,
    location: u64,
    other: u64,
) -> bool
    ensures { Says (at_place front.now number place ++ (differing number location other ++ codes "\n")) (Er.view err.old) (Er.view err.new) result }
{
    say_place(err, front, number, place)
        && say_differing(err, number, location, other)
        && say(err, "\n")
}

/// Puts the text of a status, with the name of the file that was read. Takes no memory, and does no more where `err` fails.
pub fn report<Er: Sink>(err: &mut Er, name: &str, status: Status)
    ensures { Reports (text_of_status name.now status) (Er.view err.old) (Er.view err.new) }
{
    let _said = match status {
        Status::Usage => say(err, "ehc: usage\n"),
        Status::SourceRefused(number, place) => {
            say_refusal(err, "ehc: source refused: ", number, place)
        }
        Status::ImageRefused {
            number,
            place,
            location,
            other,
        } => say_image(err, "ehc: image refused: ", number, place, location, other),
        Status::ScheduleRefused(number, place) => {
            say_refusal(err, "ehc: schedule refused: ", number, place)
        }
        Status::ReadFault => say_name(err, "ehc: read fault: ", name),
        Status::TooLong => say_name(err, "ehc: too long: ", name),
        Status::WriteFault => say(err, "ehc: write fault\n"),
        Status::NoMemory => say(err, "ehc: no memory\n"),
        _ => true,
    };
}
