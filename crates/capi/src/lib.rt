// What the front end in C calls: two functions on bytes.
#![tactic(auto)]

ghost use Rattle.std.specs.Prelude.{◌≡◌, length};
ghost use Rattle.area.specs.Laid.{in_front};
ghost use Rattle.journal.specs.JournalLine.{has_form};
ghost use Rattle.record.specs.Decoded.{decoded};
ghost use Rattle.record_text.specs.RecordText.{text_answer, text_written};

// Whether bytes are a journal line of the form.
#[unsafe(no_mangle)]
pub extern "C" fn beanmorrow_is_journal_line(line: &[u8]) -> bool
    ensures { result ≡ has_form line.now }
{
    journal::has_form(line)
}

// Writes the text of the record that these bytes are into the area, and its length into `written`: 0, or 6 for bytes that are no record,
// then 5 for an area shorter than this text; at both the length is 0 and the area stays as it is.
#[unsafe(no_mangle)]
#[tactic(auto, unfolding(fields::specs::Written::written_length))]
pub extern "C" fn beanmorrow_record_text(bytes: &[u8], text: &mut [u8], written: &mut usize) -> u32
    ensures value { result ≡ text_answer (decoded bytes.now) text.old }
    ensures written_after { written.new ≡ length (text_written (decoded bytes.now) text.old) }
    ensures text_after { text.new ≡ in_front (text_written (decoded bytes.now) text.old) text.old }
{
    match record_text::write_text(bytes, text) {
        Ok(n) => {
            *written = n;
            0
        }
        Err(refusal) => {
            *written = 0;
            refusal.number()
        }
    }
}
