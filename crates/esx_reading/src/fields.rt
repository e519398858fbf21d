//! A line as fields parted by single spaces, and numbers among them.

ghost use Rattle.std.specs.Prelude.{◌≡◌, ◌<◌, ◌≤◌, ◌^◌, ◌∷◌, ◌++◌, ◌↔◌, ◌⊎◌, [], ℕ, List, decimal, drop, get_or, length, take, MatchOption, IfSome, IfNone, IsTrue};
ghost use Rattle.esx_types.specs.declared.config.TheConstants.{VM_NUMBERS};
ghost use Rattle.std.specs.Str.Parse.{AllDigits, digits_value};
ghost use Rattle.esx_reading.specs.Fields.{HasNoSpace, fields, fields_left};

use crate::digits::{digits_len, number_of_few, number_of_sixteen, one_or_two_digits, values};
use crate::space::first_space;
use esx_types::{VM_NUMBERS, VmId};
use std::marker::Model;

/// The number that digits write, where all bytes are digits and it has 64 bits.
#[inline(always)]
fn number_of_digits(bytes: &[u8]) -> Option<u64>
    ensures some { IfSome result (λ n. (n < 2 ^ 64) × AllDigits 10 bytes.now × (n ≡ digits_value 10 bytes.now)) }
    ensures none { IfNone result (AllDigits 10 bytes.now → digits_value 10 bytes.now < 2 ^ 64 → ⊥) }
{
    let mut number: u64 = 0;
    for byte in bytes {
        if *byte < b'0' || b'9' < *byte {
            return None;
        }
        number = number
            .checked_mul(10)?
            .checked_add(u64::from(*byte - b'0'))?;
    }
    Some(number)
}

/// The number whose decimal digits the text is, without sign and without leading zeros.
#[inline]
pub fn number_of(text: &str) -> Option<u64>
    ensures some { IfSome result (λ n. (n < 2 ^ 64) × (text.now ≡ decimal n)) }
    ensures none { IfNone result ((n : ℕ) → n < 2 ^ 64 → text.now ≡ decimal n → ⊥) }
{
    let bytes = text.as_bytes();
    let first = *bytes.first()?;
    if first <= b'0' && bytes.len() != 1 {
        return None;
    }
    number_of_digits(bytes)
}

/// The text before the first space, and the text behind it.
#[inline(always)]
fn split_at_space<'a>(text: &'a str) -> Option<(&'a str, &'a str)>
    ensures { MatchOption result (HasNoSpace text.now) (λ p. HasNoSpace p.0.now × (text.now ≡ p.0.now ++ 32 ∷ p.1.now)) }
{
    let at = first_space(text.as_bytes());
    if at == text.len() {
        return None;
    }
    let (field, _) = text.split_at(at);
    let (_, later) = text.split_at(at + 1);
    Some((field, later))
}

/// From this number on, one more digit may lead out of 64 bits.
const FULL: u64 = u64::MAX / 10;

/// The number that the digits in front write, as far as a space or the end, and how many they are, where a front of
/// them was read. `None` where another byte ends them, and for the largest numbers of 64 bits.
#[inline(always)]
fn digits_from(bytes: &[u8], start: usize, front: u64) -> Option<(u64, usize)>
    requires within { start ≤ length bytes.now }
    requires small { front < 2 ^ 64 }
    requires digits { AllDigits 10 (take start bytes.now) × (front ≡ digits_value 10 (take start bytes.now)) }
    ensures within { IfSome result (λ p. p.1 ≤ length bytes.now) }
    ensures small { IfSome result (λ p. p.0 < 2 ^ 64) }
    ensures digits { IfSome result (λ p. AllDigits 10 (take p.1 bytes.now) × (p.0 ≡ digits_value 10 (take p.1 bytes.now))) }
    ensures end { IfSome result (λ p. p.1 < length bytes.now → get_or bytes.now p.1 0 ≡ 32) }
{
    let mut number: u64 = front;
    for i in start..bytes.len() {
        let byte = bytes[i];
        let digit = u64::from(byte).wrapping_sub(48);
        if digit > 9 {
            return if byte == b' ' {
                Some((number, i))
            } else {
                None
            };
        }
        if number >= FULL {
            return None;
        }
        number = number * 10 + digit;
    }
    Some((number, bytes.len()))
}

/// As `digits_from`, from the first byte on.
#[inline(always)]
fn digits_in_front(bytes: &[u8]) -> Option<(u64, usize)>
    ensures within { IfSome result (λ p. p.1 ≤ length bytes.now) }
    ensures small { IfSome result (λ p. p.0 < 2 ^ 64) }
    ensures digits { IfSome result (λ p. AllDigits 10 (take p.1 bytes.now) × (p.0 ≡ digits_value 10 (take p.1 bytes.now))) }
    ensures end { IfSome result (λ p. p.1 < length bytes.now → get_or bytes.now p.1 0 ≡ 32) }
{
    digits_from(bytes, 0, 0)
}

/// As `digits_in_front`, for numbers that mostly have many digits: where sixteen bytes are left, eight digits or sixteen
/// are read as one, and fewer as far as a space.
#[inline(always)]
fn many_digits_in_front(bytes: &[u8]) -> Option<(u64, usize)>
    ensures within { IfSome result (λ p. p.1 ≤ length bytes.now) }
    ensures small { IfSome result (λ p. p.0 < 2 ^ 64) }
    ensures digits { IfSome result (λ p. AllDigits 10 (take p.1 bytes.now) × (p.0 ≡ digits_value 10 (take p.1 bytes.now))) }
    ensures end { IfSome result (λ p. p.1 < length bytes.now → get_or bytes.now p.1 0 ≡ 32) }
{
    let Some((sixteen, _)) = bytes.split_first_chunk::<16>() else {
        return digits_in_front(bytes);
    };
    if let Some(read) = one_or_two_digits(sixteen) {
        return Some(read);
    }
    let values = values(sixteen);
    let count = digits_len(values);
    if count == 16 {
        return digits_from(bytes, 16, number_of_sixteen(values));
    }
    if count > 8 {
        return digits_from(bytes, 8, number_of_few(values, 8));
    }
    if count == 0 || sixteen[count] != b' ' {
        return None;
    }
    Some((number_of_few(values, count), count))
}

/// The one or the other.
#[inline(always)]
fn some_digits_in_front(bytes: &[u8], many: bool) -> Option<(u64, usize)>
    ensures within { IfSome result (λ p. p.1 ≤ length bytes.now) }
    ensures small { IfSome result (λ p. p.0 < 2 ^ 64) }
    ensures digits { IfSome result (λ p. AllDigits 10 (take p.1 bytes.now) × (p.0 ≡ digits_value 10 (take p.1 bytes.now))) }
    ensures end { IfSome result (λ p. p.1 < length bytes.now → get_or bytes.now p.1 0 ≡ 32) }
{
    if many {
        many_digits_in_front(bytes)
    } else {
        digits_in_front(bytes)
    }
}

/// The number that is the first field, and the text behind it. `None` where that is no number, and for the largest
/// of 64 bits. `many` says that many digits are likely; the result is the same.
#[inline(always)]
fn number_in_front<'a>(text: &'a str, many: bool) -> Option<(u64, Option<&'a str>)>
    ensures small { IfSome result (λ p. p.0 < 2 ^ 64) }
    ensures read { IfSome result (λ p. fields text.now ≡ decimal p.0 ∷ fields_left p.1) }
{
    let bytes = text.as_bytes();
    let first = *bytes.first()?;
    let (number, count) = some_digits_in_front(bytes, many)?;
    if count == 0 {
        return None;
    }
    if first <= b'0' && count != 1 {
        return None;
    }
    if count == bytes.len() {
        return Some((number, None));
    }
    let (_, later) = text.split_at(count + 1);
    Some((number, Some(later)))
}

/// The fields of a line that are left, seen as their list.
#[derive(Drop)]
pub struct Fields<'a> {
    rest: Option<&'a str>,
}

impl<'a> Model for Fields<'a> {
    ghost use Rattle.std.specs.Prelude.{List, ℕ};

    ghost Value = { List (List ℕ) };

    ghost use Rattle.esx_reading.specs.Fields.{fields_left};

    ghost view = { λ s. fields_left s.rest };
}

impl<'a> Fields<'a> {
    #[inline]
    pub fn of(text: &'a str) -> Fields<'a>
        ensures { result ≡ fields text.now }
    {
        Fields { rest: Some(text) }
    }

    /// The next field.
    #[inline]
    pub fn next(&mut self) -> Option<&'a str>
        ensures left { MatchOption result (self.old ≡ []) (λ field. self.old ≡ field.now ∷ self.new) }
        ensures none { IfNone result (self.new ≡ []) }
    {
        let rest = self.rest?;
        match split_at_space(rest) {
            Some((field, later)) => {
                self.rest = Some(later);
                Some(field)
            }
            None => {
                self.rest = None;
                Some(rest)
            }
        }
    }

    /// Whether no field is left.
    #[inline]
    pub fn is_empty(&self) -> bool
        ensures { IsTrue result ↔ (self.now ≡ []) }
    {
        self.rest.is_none()
    }

    /// The field that is left, where one alone is.
    #[inline]
    pub fn only(&self) -> Option<&'a str>
        ensures some { IfSome result (λ field. self.now ≡ field.now ∷ []) }
        ensures none { IfNone result ((field : List ℕ) → self.now ≡ field ∷ [] → ⊥) }
    {
        let text = self.rest?;
        if text.as_bytes().contains(&b' ') {
            return None;
        }
        Some(text)
    }

    /// All that is left, as the text that it was.
    pub fn rest(&self) -> Option<&'a str>
        ensures { MatchOption result (self.now ≡ []) (λ text. self.now ≡ fields text.now) }
    {
        let left = self.rest?;
        Some(left)
    }

    /// The next field as a number below a limit.
    fn below(&mut self, limit: u64) -> Option<u64>
        ensures some { IfSome result (λ n. (n < limit) × (self.old ≡ decimal n ∷ self.new)) }
        ensures none { IfNone result ((n : ℕ) (others : List (List ℕ)) → n < limit → self.old ≡ decimal n ∷ others → ⊥) }
        ensures one { IfNone result (self.new ≡ drop 1 self.old) }
    {
        let number = self.word_of(false)?;
        if number < limit { Some(number) } else { None }
    }

    /// The next field as a number.
    pub fn number(&mut self) -> Option<u32>
        ensures some { IfSome result (λ n. self.old ≡ decimal n ∷ self.new) }
        ensures none { IfNone result ((n : ℕ) (others : List (List ℕ)) → n < 2 ^ 32 → self.old ≡ decimal n ∷ others → ⊥) }
        ensures one { IfNone result (self.new ≡ drop 1 self.old) }
    {
        let number = self.below(1 << 32)?;
        Some(number as u32)
    }

    /// The next field as a word.
    #[inline(always)]
    pub fn word(&mut self) -> Option<u64>
        ensures small { IfSome result (λ n. n < 2 ^ 64) }
        ensures some { IfSome result (λ n. self.old ≡ decimal n ∷ self.new) }
        ensures none { IfNone result ((n : ℕ) (others : List (List ℕ)) → n < 2 ^ 64 → self.old ≡ decimal n ∷ others → ⊥) }
        ensures one { IfNone result (self.new ≡ drop 1 self.old) }
    {
        self.word_of(true)
    }

    /// The same: most in one pass over its bytes.
    #[inline(always)]
    fn word_of(&mut self, many: bool) -> Option<u64>
        ensures small { IfSome result (λ n. n < 2 ^ 64) }
        ensures some { IfSome result (λ n. self.old ≡ decimal n ∷ self.new) }
        ensures none { IfNone result ((n : ℕ) (others : List (List ℕ)) → n < 2 ^ 64 → self.old ≡ decimal n ∷ others → ⊥) }
        ensures one { IfNone result (self.new ≡ drop 1 self.old) }
    {
        let text = self.rest?;
        match number_in_front(text, many) {
            Some((number, later)) => {
                self.rest = later;
                Some(number)
            }
            None => self.plain_word(),
        }
    }

    /// The same for every field: it is cut off first.
    #[inline(never)]
    fn plain_word(&mut self) -> Option<u64>
        ensures small { IfSome result (λ n. n < 2 ^ 64) }
        ensures some { IfSome result (λ n. self.old ≡ decimal n ∷ self.new) }
        ensures none { IfNone result ((n : ℕ) (others : List (List ℕ)) → n < 2 ^ 64 → self.old ≡ decimal n ∷ others → ⊥) }
        ensures one { IfNone result (self.new ≡ drop 1 self.old) }
    {
        number_of(self.next()?)
    }

    /// The next two fields as numbers.
    pub fn pair(&mut self) -> Option<(u32, u32)>
        ensures some { IfSome result (λ p. self.old ≡ decimal p.0 ∷ decimal p.1 ∷ self.new) }
        ensures none { IfNone result ((n m : ℕ) (others : List (List ℕ)) → n < 2 ^ 32 → m < 2 ^ 32
            → self.old ≡ decimal n ∷ decimal m ∷ others → ⊥) }
        ensures one { IfNone result ((self.new ≡ drop 1 self.old) ⊎ (self.new ≡ drop 2 self.old)) }

        // It takes the second field only where the first is such a number, and then it does.
        ensures both { IfNone result ((n : ℕ) (others : List (List ℕ)) → n < 2 ^ 32 → self.old ≡ decimal n ∷ others → self.new ≡ drop 2 self.old) }
        ensures kept { IfNone result (((n : ℕ) (others : List (List ℕ)) → n < 2 ^ 32 → self.old ≡ decimal n ∷ others → ⊥)
            → self.new ≡ drop 1 self.old) }
    {
        let first = self.number()?;
        let second = self.number()?;
        Some((first, second))
    }

    /// The next field as the number of a virtual machine.
    pub fn vm(&mut self) -> Option<VmId>
        ensures some { IfSome result (λ n. (n < VM_NUMBERS) × (self.old ≡ decimal n ∷ self.new)) }
        ensures none { IfNone result ((n : ℕ) (others : List (List ℕ)) → n < VM_NUMBERS → self.old ≡ decimal n ∷ others → ⊥) }
        ensures one { IfNone result (self.new ≡ drop 1 self.old) }
    {
        let number = self.below(VM_NUMBERS as u64)?;
        Some(VmId::new(number as u8))
    }
}
