ghost use Rattle.std.specs.Prelude.{◌≡◌, ◌+◌, ◌<◌, ◌≤◌, [], ◌∷◌, length, MatchOption};
ghost use Rattle.formats.specs.Words.{word};

/// A file: its name and its bytes.
#[derive(Clone, Copy)]
pub struct File<'a> {
    pub name: &'a str,
    pub bytes: &'a [u8],
}

/// The number at byte `at`, where the file has it; of any file, also one that was refused.
pub fn number_at(bytes: &[u8], at: usize) -> Option<u16>
    ensures { MatchOption result (length bytes.now ≤ at + 1) (λ x. (at + 1 < length bytes.now) × (x ≡ word bytes.now at)) }
{
    let low = *bytes.get(at)?;
    let high = *bytes.get(at + 1)?;
    Some(u16::from_le_bytes([low, high]))
}

/// The number at byte `at`; 0 where the file has none. (The words for a fault ask for numbers that are there.)
pub fn number_or_zero(bytes: &[u8], at: usize) -> u16
    ensures there { at + 1 < length bytes.now → result ≡ word bytes.now at }
    ensures beyond { length bytes.now ≤ at + 1 → result ≡ 0 }
{
    number_at(bytes, at).unwrap_or(0)
}

/// The three sizes that a file of either format begins with, whether or not they are within their limits.
pub fn sizes_of(bytes: &[u8]) -> Option<[u16; 3]>
    ensures { MatchOption result (length bytes.now < 6) (λ z. (6 ≤ length bytes.now) × (z ≡ word bytes.now 0 ∷ word bytes.now 2 ∷ word bytes.now 4 ∷ [])) }
{
    Some([
        number_at(bytes, 0)?,
        number_at(bytes, 2)?,
        number_at(bytes, 4)?,
    ])
}
