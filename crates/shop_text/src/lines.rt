// The lines of a text, and the tokens and numbers of a line.
ghost use Rattle.std.specs.Prelude.{◌≡◌, ◌<◌, ◌∷◌, [], not, length, position, MatchOption};
ghost use Rattle.shop_text.specs.Lines.{lines_of, tokens_of, is_line_feed, is_separator};
ghost use Rattle.shop_text.specs.inner.LineReading.{number_in, AreLeadingDigits, IsNumberCut};

/// Finds the first line end; `None` if there is none.
fn line_end(text: &[u8]) -> Option<usize>
    ensures { result ≡ position is_line_feed text.now }
{
    text.iter().position(|b| *b == b'\n')
}

/// Splits a text that isn't empty into its first line and the text after the line.
pub(crate) fn next_line(text: &[u8]) -> (&[u8], &[u8])
    requires { 0 < length text.now }
    ensures cut { lines_of text.now ≡ result.0.now ∷ lines_of result.1.now }
    ensures shorter { length result.1.now < length text.now }
{
    match line_end(text) {
        Some(i) => (&text[..i], &text[i + 1..]),
        None => (text, &text[text.len()..]),
    }
}

/// Returns whether the byte `b` separates tokens.
fn is_between_tokens(b: u8) -> bool
    ensures { result ≡ is_separator b }
{
    b == b' ' || b == b'\t' || b == b'\r'
}

/// Finds where the first token begins; `None` if the line is blank.
fn token_start(line: &[u8]) -> Option<usize>
    ensures { result ≡ position (λ b. not (is_separator b)) line.now }
{
    line.iter().position(|b| !is_between_tokens(*b))
}

/// Finds the first separator; `None` if there is none.
fn token_end(line: &[u8]) -> Option<usize>
    ensures { result ≡ position is_separator line.now }
{
    line.iter().position(|b| is_between_tokens(*b))
}

/// Splits a line into its first token and what follows the separator after it; `None` if the line is blank.
pub(crate) fn next_token(line: &[u8]) -> Option<(&[u8], &[u8])>
    ensures cut { MatchOption result (tokens_of line.now ≡ []) (λ t. tokens_of line.now ≡ t.0.now ∷ tokens_of t.1.now) }
    ensures shorter { MatchOption result (Unit {0}) (λ t. length t.1.now < length line.now) }
{
    let rest = &line[token_start(line)?..];
    match token_end(rest) {
        Some(end) => Some((&rest[..end], &rest[end + 1..])),
        None => Some((rest, &rest[rest.len()..])),
    }
}

/// The most digits whose value is sure to be below 2^64.
const SAFE_DIGITS: usize = 19;

/// Returns the value of the leading digits of `text`, capped at `u64::MAX`, and how many digits there are. Looks at
/// each byte once, and sums the first 19 digits without a test of overflow.
fn leading_digits(text: &[u8]) -> (u64, usize)
    ensures { AreLeadingDigits text.now result.0 result.1 }
{
    let most = text.len().min(SAFE_DIGITS);
    let mut value: u64 = 0;
    for i in 0..most {
        let b = text[i];
        if !b.is_ascii_digit() {
            return (value, i);
        }
        value = 10 * value + u64::from(b - b'0');
    }
    for i in most..text.len() {
        let digit = text[i];
        if !digit.is_ascii_digit() {
            return (value, i);
        }
        value = value
            .saturating_mul(10)
            .saturating_add(u64::from(digit - b'0'));
    }
    (value, text.len())
}

/// Returns the value of `token`, or `u64::MAX` if that is less; `None` if it is no number.
pub(crate) fn number_of(token: &[u8]) -> Option<u64>
    ensures { result ≡ number_in token.now }
{
    let (value, digits) = leading_digits(token);
    (digits == token.len()).then_some(value)
}

/// Reads the first token of a line: returns its value, or `None` if it is no number, and what follows the separator
/// after it. Returns `None` alone if the line is blank. Reads a number, and finds its end, in one pass.
pub(crate) fn next_number(line: &[u8]) -> Option<(Option<u64>, &[u8])>
    ensures cut { MatchOption result (tokens_of line.now ≡ []) (λ t. IsNumberCut line.now t.0 t.1.now) }
    ensures shorter { MatchOption result (Unit {0}) (λ t. length t.1.now < length line.now) }
{
    let rest = &line[token_start(line)?..];
    let (value, end) = leading_digits(rest);
    if end == rest.len() {
        return Some((Some(value), &rest[rest.len()..]));
    }
    if is_between_tokens(rest[end]) {
        return Some((Some(value), &rest[end + 1..]));
    }
    let (token, rest) = next_token(line)?;
    Some((number_of(token), rest))
}
