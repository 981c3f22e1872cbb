// The TKEY of a reply (RFC 2930, 2; 02, CR 1): reads what a pass over the answer section kept the place of.
#![tactic(auto)]

ghost use Rattle.std.specs.Prelude.{◌+◌, ◌≤◌, length};
ghost use Rattle.answers.specs.Answer.{FieldsRead, RecordRead, AnswerRead};

use messages::Kept;
use model::Span;
use records::Found;
use tkey::Layout;

// The fields of a TKEY that the resolver looks at. Its algorithm's name is a part of the message.
#[derive(Clone, Copy)]
pub struct AnswerFields {
    pub algorithm: Span,
    pub inception: u32,
    pub expiration: u32,
    pub mode: usize,
    pub error: usize,
}

// The only TKEY of the answer section, well formed: its owner name has `name` octets in the lent array.
#[derive(Clone, Copy)]
pub struct AnswerFound {
    pub name: usize,
    pub fields: AnswerFields,
}

// The fields of the TKEY data d, which stands in the message from `start` on; its algorithm's name ends at `next`.
fn fields_of(d: &[u8], start: usize, next: usize) -> AnswerFields
    requires { next + 12 ≤ length d.now }
    ensures { FieldsRead d.now start next result }
{
    AnswerFields {
        algorithm: Span {
            from: start,
            size: next,
        },
        inception: octets::u32_at(d, next) as u32,
        expiration: octets::u32_at(d, next + 4) as u32,
        mode: octets::u16_at(d, next + 8),
        error: octets::u16_at(d, next + 10),
    }
}

// The TKEY that the record at `place` holds, its owner name written out into `owner`.
fn answer_at(m: &[u8], owner: &mut [u8; 255], place: usize) -> Option<AnswerFound>
    ensures { RecordRead m.now place owner.new result }
{
    match records::expand_record(m, owner, place) {
        Err(_) => None,
        Ok(
            Found {
                len: name,
                kind: _,
                class: _,
                ttl: _,
                content,
            },
        ) => {
            let start = content.from;
            let d = records::part_of(m, content);
            match tkey::layout_of(d) {
                None => None,
                Some(
                    Layout {
                        next,
                        count: _,
                        size: _,
                    },
                ) => {
                    let fields = fields_of(d, start, next);
                    Some(AnswerFound { name, fields })
                }
            }
        }
    }
}

// The only TKEY of the answer section, by what a pass kept of such records. Its owner name is written out into `owner`.
pub fn answer_by(m: &[u8], owner: &mut [u8; 255], kept: Kept) -> Option<AnswerFound>
    ensures { AnswerRead m.now kept owner.new result }
{
    match kept {
        Kept::Never => None,
        Kept::Once { section: _, place } => answer_at(m, owner, place),
        Kept::More => None,
    }
}
