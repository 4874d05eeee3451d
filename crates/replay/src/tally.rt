// How many lines of each kind there were, how many of them differ, and the first that does: what is counted, and the
// page that says it.
use crate::kinds::Kind;
use std::io;

#[derive(Clone, Copy)]
struct Counts {
    asked: u64,
    differing: u64,
}

#[derive(Clone, Copy)]
pub struct Tally {
    counts: [Counts; Kind::COUNT],
    lines: u64,
    first: Option<u64>,
}

impl Tally {
    pub fn new() -> Tally {
        let none = Counts {
            asked: 0,
            differing: 0,
        };
        Tally {
            counts: [none; Kind::COUNT],
            lines: 0,
            first: None,
        }
    }

    // One more line of a kind, which agreed or did not.
    pub fn add(&mut self, kind: Kind, agreed: bool) {
        let counts = &mut self.counts[kind as usize];
        counts.asked = counts.asked.wrapping_add(1);
        self.lines = self.lines.wrapping_add(1);
        if !agreed {
            counts.differing = counts.differing.wrapping_add(1);
            self.first = self.first.or(Some(self.lines));
        }
    }

    pub fn print(&self, rt: &impl Print) -> io::Result<()> {
        let (questions, others) = self.counts.split_at(Kind::QUESTIONS);
        let (names, other_names) = Kind::NAMES.split_at(Kind::QUESTIONS);
        println!(rt;
            "The original's answers, replayed: how many of each kind, and how many differ"
        )?;
        print_rows(rt, names, questions)?;
        println!(rt; "Lines that ask nothing, and how many of them could not be read")?;
        print_rows(rt, other_names, others)?;
        match self.first {
            Some(line) => println!(rt; "First line that differs: {line}")?,
            None => println!(rt; "First line that differs: none")?,
        }
        let asked = questions
            .iter()
            .fold(0u64, |sum, each| sum.wrapping_add(each.asked));
        let differing = self
            .counts
            .iter()
            .fold(0u64, |sum, each| sum.wrapping_add(each.differing));
        println!(rt; "Total: {asked} questions, {differing} differ")
    }
}

fn print_rows(rt: &impl Print, names: &[&'static str], counts: &[Counts]) -> io::Result<()> {
    for (name, Counts { asked, differing }) in names.iter().zip(counts) {
        println!(rt; "{name} {asked}, differ {differing}")?;
    }
    Ok(())
}
