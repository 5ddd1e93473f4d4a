// The words of a line, and the numbers among them.
use std::str::Split;

// The words of a line that are still to be read.
#[derive(Drop)]
pub struct Words<'a> {
    rest: Split<'a, char>,
}

// The number from 0 to 255 that decimal digits are.
fn number_of(word: &str) -> Option<u8> {
    if !word.bytes().all(|byte| byte.is_ascii_digit()) {
        return None;
    }
    word.parse::<u8>().ok()
}

impl<'a> Words<'a> {
    pub fn of(line: &'a str) -> Words<'a> {
        Words {
            rest: line.split(' '),
        }
    }

    // The next word: spaces in a row separate words as one space does.
    pub fn next_word(&mut self) -> Option<&'a str> {
        self.rest.find(|word| !word.is_empty())
    }

    pub fn number(&mut self) -> Option<u8> {
        number_of(self.next_word()?)
    }

    // As many numbers as there are places for.
    pub fn numbers<const N: usize>(&mut self) -> Option<[u8; N]> {
        let mut numbers = [0; N];
        for place in numbers.iter_mut() {
            *place = self.number()?;
        }
        Some(numbers)
    }

    // Nothing, where words are left.
    pub fn end(&mut self) -> Option<()> {
        match self.next_word() {
            None => Some(()),
            Some(_) => None,
        }
    }
}
