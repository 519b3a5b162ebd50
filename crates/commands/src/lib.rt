// The lines of the calls that a display makes.
#![tactic(auto)]

ghost use Rattle.std.specs.Prelude.{◌≡◌};
ghost use Rattle.decimal.specs.Spelled.{Ended};
ghost use Rattle.commands.specs.CommandLine.{ExactCommand};
ghost use Rattle.commands.specs.ReadLine.{display_line_of, command_of};

// The widest numbers of 32 and of 64 bits.
const WORD: u32 = u32::MAX;

const LONG: u64 = u64::MAX;

// A command with its display and its id.
#[derive(Clone, Copy, Debug, PartialEq, Eq)]
pub enum Command {
    Acknowledge(u32, u64),
    Fetch(u32, u64),
}

// The display and the id of the line that the whole text is, with `start` up to the display's number.
#[tactic(auto, unfolding(crate::specs::ReadLine::display_line_of, fields::specs::Field::with_field))]
fn display_line(text: &[u8], start: &[u8]) -> Option<(u32, u64)>
    requires { Ended text.now }
    ensures { result ≡ display_line_of start.now text.now }
{
    let (display, e1) = fields::number_field(text, 0, start, WORD)?;
    let (id, e2) = fields::wide_field(text, e1, b" id=", LONG)?;
    if fields::ends_line(text, e2) && e2 + 1 == text.len() {
        Some((display, id))
    } else {
        None
    }
}

// What a text is read as: the command whose line it is, or none.
#[tactic(auto, unfolding(crate::specs::ReadLine::command_of, crate::specs::ReadLine::or_else))]
pub fn read_command(text: &[u8]) -> Option<Command>
    ensures value { result ≡ command_of text.now }
    ensures exact_command { ExactCommand text.now result }
{
    if !fields::is_line(text) {
        return None;
    }
    if let Some((display, id)) = display_line(text, b"ack display=") {
        return Some(Command::Acknowledge(display, id));
    }
    let (display, id) = display_line(text, b"fetch display=")?;
    Some(Command::Fetch(display, id))
}
