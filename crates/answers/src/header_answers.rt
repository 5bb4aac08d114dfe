// The answers about the header of either file.
ghost use Rattle.std.specs.Prelude.{◌≡◌};
ghost use Rattle.verdict.specs.Answers.{answer_number};
ghost use Rattle.x1_questions.specs.Answers.{header_answer};
ghost use Rattle.x1_questions.specs.Questions.{header_of};
ghost use Rattle.x2_verdict.specs.Answers.{named_header_answer};
ghost use Rattle.x2_verdict.specs.Questions.{named_header_of};

use crate::geography_answers::{answered, refused};
use envelope::Header;
use std::io::Stdout;
use text::{lines, message_line};
use x2_verdict::NamedHeader;

fn header_lines(out: Stdout, h: Header) {
    answered(out);
    let values = [h.structure, h.data, h.station];
    lines(out, b"structure data station", &values);
}

// The question header1.
pub fn header1(out: Stdout, f: &[u8]) -> usize
    ensures { result ≡ answer_number (header_answer (header_of f.now)) }
{
    match x1_questions::header(f) {
        Ok(h) => {
            header_lines(out, h);
            0
        }
        Err(fault) => refused(out, fault),
    }
}

fn named_header_lines(out: Stdout, f: &[u8], h: NamedHeader) {
    let header = h.header;
    header_lines(out, header);
    message_line(out, b"name", f, h.name, h.name_bytes);
}

// The question header2.
pub fn header2(out: Stdout, f: &[u8]) -> usize
    ensures { result ≡ answer_number (named_header_answer (named_header_of f.now)) }
{
    match x2_verdict::header(f) {
        Ok(h) => {
            named_header_lines(out, f, h);
            0
        }
        Err(fault) => refused(out, fault),
    }
}
