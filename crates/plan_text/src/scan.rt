// Reads words and lines of numbers at the front of a text.
ghost use Rattle.std.specs.Prelude.{◌≡◌, ℕ, ◌<◌, List, ◌++◌, length, MatchOption, IfNone, IfSome, OnSome};
ghost use Rattle.std.specs.List.{AllByRecursion};
ghost use Rattle.plan_text.specs.Rows.{row as LineOf, TenDigits, AreDigits, NoDigit, Begins};
ghost use Rattle.plan_text.specs.Text.{Lacks};
ghost use Rattle.plan_text.specs.Reading.{LacksRow};

// A number of a line has at most so many digits.
const MOST_DIGITS: usize = 10;

// The text behind `word`, if it begins with `word`.
pub(crate) fn literal<'a>(text: &'a [u8], word: &[u8]) -> Option<&'a [u8]>
    ensures { MatchOption result (Lacks text.now word.now)
        (λ rest. text.now ≡ word.now ++ rest.now) }
{
    text.strip_prefix(word)
}

// The digits that the text begins with, and the text behind them.
fn split_digits(text: &[u8]) -> (&[u8], &[u8])
    ensures whole { text.now ≡ result.0.now ++ result.1.now }
    ensures digits { AreDigits result.0.now }
    ensures ends { NoDigit result.1.now }
{
    let count = text
        .iter()
        .position(|byte| !byte.is_ascii_digit())
        .unwrap_or(text.len());
    text.split_at(count)
}

// The number that the text begins with, of at most ten digits and no zero before others,
// and the text behind it.
fn number(text: &[u8]) -> Option<(u64, &[u8])>
    ensures { MatchOption result ((n : ℕ) (rest : List ℕ) → Begins text.now n rest → ⊥)
        (λ x. Begins text.now x.0 x.1.now) }
{
    let (digits, rest) = split_digits(text);
    if digits.is_empty() || digits.len() > MOST_DIGITS {
        return None;
    }
    if digits.len() > 1 && digits[0] == b'0' {
        return None;
    }
    // A loop: `fold` was tried, and its proof did not close. It asks before the first call that no
    // sum on the way overflows, which here the loop's invariant says.
    let mut value = 0;
    for digit in digits {
        value = value * 10 + u64::from(*digit - b'0');
    }
    Some((value, rest))
}

// Reads a line of numbers, as many as `numbers` has places; answers the text behind it.
pub(crate) fn row<'a>(text: &'a [u8], numbers: &mut [u64]) -> Option<&'a [u8]>
    requires { 0 < length numbers.old }
    ensures none { IfNone result (LacksRow text.now (length numbers.old)) }
    ensures short { OnSome result (AllByRecursion TenDigits numbers.new) }
    ensures line { IfSome result (λ rest. text.now ≡ LineOf numbers.new ++ rest.now) }
{
    let mut rest = text;
    for (i, place) in numbers.iter_mut().enumerate() {
        if i > 0 {
            rest = literal(rest, b" ")?;
        }
        let (value, behind) = number(rest)?;
        *place = value;
        rest = behind;
    }
    literal(rest, b"\n")
}
