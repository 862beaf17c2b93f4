ghost use Rattle.std.specs.Prelude.{◌≡◌, ◌<◌, ◌-◌, ℕ, List, IfOk, MatchOption};
ghost use Rattle.std.specs.Option.{option_map};
ghost use Rattle.command_words.specs.Numbers.{IsNumber, HasValue, IsList, IsSchedule, HasSchedule};

use std::alloc::{AllocError, Global};

/// The number that the text writes, within its limits.
pub fn number_of(text: &str, least: u32, most: u32) -> Option<u32>
    ensures { MatchOption result ((n : ℕ) → ¬ IsNumber least most text.now n) (λ n. IsNumber least most text.now n) }
{
    if text.len() > 10 || text.starts_with('+') {
        return None;
    }
    match text.parse::<u32>() {
        Ok(number) if number >= least && number <= most => Some(number),
        _ => None,
    }
}

/// The number that an option gives, or its default.
pub fn value_of(given: Option<&str>, least: u32, most: u32, default: u32) -> Option<u32>
    ensures { MatchOption result
        ((n : ℕ) → ¬ HasValue least most default (option_map (λ s. s.now) given.entry) n)
        (λ n. HasValue least most default (option_map (λ s. s.now) given.entry) n) }
{
    match given {
        Some(text) => number_of(text, least, most),
        None => Some(default),
    }
}

// The numbers that commas join, each at most `most`.
fn numbers_of(alloc: Global, text: &str, most: u32) -> Result<Option<Vec<u32>>, AllocError>
    ensures { IfOk result (λ found. MatchOption found
        ((ns : List ℕ) → ¬ IsList most text.now ns)
        (λ numbers. IsList most text.now numbers.items)) }
{
    let mut numbers = Vec::new(alloc);
    let mut rest = text;
    while let Some((first, behind)) = rest.split_once(',') {
        let Some(number) = number_of(first, 0, most) else {
            return Ok(None);
        };
        numbers.push(number)?;
        rest = behind;
    }
    let Some(number) = number_of(rest, 0, most) else {
        return Ok(None);
    };
    numbers.push(number)?;
    Ok(Some(numbers))
}

// The schedule that the text writes.
fn schedule_in(alloc: Global, text: &str, workers: u32) -> Result<Option<Vec<u32>>, AllocError>
    requires { 0 < workers }
    ensures { IfOk result (λ found. MatchOption found
        ((ns : List ℕ) → ¬ IsSchedule workers text.now ns)
        (λ numbers. IsSchedule workers text.now numbers.items)) }
{
    let Some(numbers) = numbers_of(alloc, text, workers - 1)? else {
        return Ok(None);
    };
    if numbers.len() <= 4096 && numbers.contains(&0) {
        return Ok(Some(numbers));
    }
    Ok(None)
}

/// The schedule that an option gives, or `0`.
pub fn schedule_of(
    alloc: Global,
    given: Option<&str>,
    workers: u32,
) -> Result<Option<Vec<u32>>, AllocError>
    requires { 0 < workers }
    ensures { IfOk result (λ found. MatchOption found
        ((ns : List ℕ) → ¬ HasSchedule workers (option_map (λ s. s.now) given.entry) ns)
        (λ numbers. HasSchedule workers (option_map (λ s. s.now) given.entry) numbers.items)) }
{
    match given {
        Some(text) => schedule_in(alloc, text, workers),
        None => Ok(Some(vec![in alloc; 0]?)),
    }
}
