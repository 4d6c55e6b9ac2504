// One line of the list, `case : answer`, from bytes to numbers. The numbers go to a lent buffer, the answer's after the
// case's; what does not fit, or is no number, spoils the line.
ghost use Rattle.std.specs.Prelude.{◌≤◌};

use std::num::wrapping_add_u64;

#[derive(Clone, Copy)]
pub struct Line {
    // The line's number in the list, from 1.
    pub place: u64,
    // Numbers in the buffer, and how many of them are the case's.
    pub count: usize,
    pub case: usize,
    // Whether the colon has come.
    pub parted: bool,
    // The number that is being read, and whether a digit of it has come.
    pub value: u64,
    pub open: bool,
    pub spoiled: bool,
}

impl Line {
    fn at(place: u64) -> Line {
        Line {
            place,
            count: 0,
            case: 0,
            parted: false,
            value: 0,
            open: false,
            spoiled: false,
        }
    }

    pub(crate) fn first() -> Line {
        Line::at(1)
    }

    pub(crate) fn next(self) -> Line {
        Line::at(wrapping_add_u64(self.place, 1))
    }

    // Whether anything of the line has come.
    pub(crate) fn begun(self) -> bool {
        self.open | (0 < self.count) | self.parted | self.spoiled
    }

    fn spoilt(mut self) -> Line {
        self.spoiled = true;
        self
    }

    fn digit(mut self, d: u64) -> Line
        requires { d ≤ 9 }
    {
        let value = self.value;
        if (u64::MAX - d) / 10 < value {
            return self.spoilt();
        }
        self.value = value * 10 + d;
        self.open = true;
        self
    }

    // The number that was being read goes to the buffer.
    pub(crate) fn closed(mut self, numbers: &mut [u64]) -> Line {
        if !self.open {
            return self;
        }
        let at = self.count;
        if numbers.len() <= at {
            return self.spoilt();
        }
        numbers[at] = self.value;
        self.count = at + 1;
        self.value = 0;
        self.open = false;
        self
    }

    // The colon: what has come is the case.
    fn part(mut self) -> Line {
        if self.parted {
            return self.spoilt();
        }
        self.case = self.count;
        self.parted = true;
        self
    }

    // The line with one byte more, which does not end it.
    pub(crate) fn taken(self, b: u8, numbers: &mut [u64]) -> Line {
        if b == b' ' {
            return self.closed(numbers);
        }
        if b == b':' {
            return self.closed(numbers).part();
        }
        if b < b'0' {
            return self.spoilt();
        }
        if b'9' < b {
            return self.spoilt();
        }
        self.digit((b - b'0') as u64)
    }
}
