//! Tests of texts.
ghost use Rattle.std.specs.Prelude.{◌≡◌};
ghost use Rattle.expr_eval.specs.Texts.{contains, passes, tested};

use graph_value::Value;

/// STARTS WITH, ENDS WITH and CONTAINS.
#[derive(Clone, Copy, PartialEq, Eq)]
pub(crate) enum TextTest {
    Starts,
    Ends,
    Contains,
}

fn contains(text: &[u8], part: &[u8]) -> bool
    ensures { result ≡ contains text.now part.now }
{
    for at in 0..text.len() {
        if text[at..].starts_with(part) {
            return true;
        }
    }
    part.is_empty()
}

impl TextTest {
    fn passes(self, text: &[u8], part: &[u8]) -> bool
        ensures { result ≡ passes self text.now part.now }
    {
        match self {
            TextTest::Starts => text.starts_with(part),
            TextTest::Ends => text.ends_with(part),
            TextTest::Contains => contains(text, part),
        }
    }

    /// What the test gives of two values.
    #[tactic(auto, unfolding(crate::specs::Texts::tested))]
    pub(crate) fn tested(self, text: &Value, part: &Value) -> Value
        ensures { result ≡ tested self text.now part.now }
    {
        match (text, part) {
            (Value::Text(text), Value::Text(part)) => {
                Value::Bool(self.passes(text.as_str().as_bytes(), part.as_str().as_bytes()))
            }
            _ => Value::Null,
        }
    }
}
