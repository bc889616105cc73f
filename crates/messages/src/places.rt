// The places of a message's fields.

#![tactic(auto)]

ghost use Rattle.messages.specs.Layouts.{laid, Small};

use crate::MessageKind;

// Where the fields of a message are: name, label, the own dot's place, the context; what a remove lacks is 0.
// Not an enum with fields: the definition `remove_layout` (specs/Read) has the zeros.
#[derive(Clone, Copy)]
pub struct Places {
    pub kind: MessageKind,
    pub name: wire::Span,
    pub label: wire::Span,
    pub dot: usize,
    pub context: wire::Span,
    // Each length byte is at most 255, so no sum of places overflows.
    ghost small: { Small (laid kind name label dot context) },
}
