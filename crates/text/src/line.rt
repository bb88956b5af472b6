// Cutting a text in two, and taking its lines one by one.
ghost use Rattle.std.specs.Prelude.{◌≡◌};
ghost use Rattle.std.specs.Option.{option_map};
ghost use Rattle.text.specs.Lines.{next_line, split_once};

// The text before the first byte `at` and the text behind it; none where there is no such byte.
pub fn split_once(text: &[u8], at: u8) -> Option<(&[u8], &[u8])>
    ensures { option_map (λ p. (p.0.now, p.1.now)) result ≡ split_once text.now at }
{
    let end = text.iter().position(|b| *b == at)?;
    Some((&text[..end], &text[end + 1..]))
}

// The first line, without the byte 10 that ends it, and the text behind; none where no line is ended.
pub fn next_line(text: &[u8]) -> Option<(&[u8], &[u8])>
    ensures { option_map (λ p. (p.0.now, p.1.now)) result ≡ next_line text.now }
{
    split_once(text, b'\n')
}
