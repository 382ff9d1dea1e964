use algebra::{Entry, Term};
use run::{Call, Given, Line};
use std::alloc::{AllocError, Global};

// The term with these exponents of the first two variables.
fn xy(a: u8, b: u8) -> Term {
    [a, b, 0, 0, 0, 0, 0, 0]
}

// Calls, each written after those before it.
#[derive(Drop)]
struct Script {
    lines: Vec<Line>,
    heap: Global,
}

impl Script {
    fn new(heap: Global) -> Script {
        Script {
            lines: Vec::new(heap),
            heap,
        }
    }

    // A row that a call is lent: it holds sevens, which no field here has left by itself.
    fn lent(&self, length: usize) -> Result<Vec<u16>, AllocError> {
        Ok(vec![in self.heap; 7; length]?)
    }

    fn slots(&self, length: usize) -> Result<Vec<Entry>, AllocError> {
        let sevens = Entry {
            code: 7,
            multiplier: xy(7, 7),
            place: 7,
        };
        Ok(vec![in self.heap; sevens; length]?)
    }

    fn call(&mut self, call: Call) -> Result<(), AllocError> {
        self.lines.push(Line { call, answer: None })?;
        Ok(())
    }

    fn rule(&mut self, term: Term, lead: u16, row: &[u16]) -> Result<(), AllocError> {
        let row = row.to_vec(self.heap)?;
        self.call(Call::Rule(Given { term, lead, row }))
    }

    fn check(&mut self, terms: usize, room: usize) -> Result<(), AllocError> {
        let row = self.lent(terms)?;
        self.call(Call::Check(row, self.slots(room)?))
    }

    fn form(&mut self, pairs: &[(u16, Term)], terms: usize) -> Result<(), AllocError> {
        let p = pairs.to_vec(self.heap)?;
        self.call(Call::Form(p, self.lent(terms)?))
    }

    fn cofactors(
        &mut self,
        pairs: &[(u16, Term)],
        terms: usize,
        room: usize,
    ) -> Result<(), AllocError> {
        let p = pairs.to_vec(self.heap)?;
        let row = self.lent(terms)?;
        self.call(Call::Cofactors(p, row, self.slots(room)?))
    }

    fn table(&mut self, i: u16, length: usize) -> Result<(), AllocError> {
        let rows = self.lent(length)?;
        self.call(Call::Table(i, rows))
    }
}

// S = 1, x1, x2, x1x2, closed, with rules for all of its border but x1x2².
fn square_rules(script: &mut Script) -> Result<(), AllocError> {
    script.call(Call::Lay(2))?;
    for t in [xy(0, 0), xy(1, 0), xy(0, 1), xy(1, 1)] {
        script.call(Call::Term(t))?;
    }
    script.call(Call::Close)?;
    script.rule(xy(2, 0), 1, &[1, 0, 0, 0])?;
    script.rule(xy(0, 2), 1, &[0, 0, 1, 0])?;
    script.rule(xy(2, 1), 1, &[0, 0, 1, 0])
}

// A missing rule, a clash, and the replaced rule that makes the book sound.
fn square_checks(script: &mut Script) -> Result<(), AllocError> {
    script.check(4, 10)?;
    script.rule(xy(1, 2), 1, &[0, 0, 1, 0])?;
    script.form(&[(1, xy(3, 3))], 4)?;
    script.check(4, 9)?;
    script.check(3, 10)?;
    script.check(4, 10)?;
    script.rule(xy(1, 2), 1, &[0, 0, 0, 1])?;
    script.check(4, 11)
}

fn square_forms(script: &mut Script) -> Result<(), AllocError> {
    script.form(&[(1, xy(3, 3)), (2, xy(1, 1))], 4)?;
    script.form(&[(2, xy(3, 3)), (1, xy(0, 2)), (2, xy(0, 0))], 4)?;
    script.form(&[], 4)?;
    script.cofactors(&[], 4, 1)?;
    script.cofactors(&[(1, xy(2, 1)), (2, xy(1, 2))], 4, 24)?;
    script.cofactors(&[(1, xy(2, 1)), (2, xy(1, 2))], 4, 23)
}

fn square_tables(script: &mut Script) -> Result<(), AllocError> {
    script.table(2, 16)?;
    script.table(3, 16)?;
    script.table(1, 15)
}

// Refused calls leave the verdict; a struck or given rule ends it.
fn square_verdicts(script: &mut Script) -> Result<(), AllocError> {
    script.rule(xy(1, 2), 0, &[0, 0, 0, 1])?;
    script.form(&[(1, xy(0, 2))], 4)?;
    script.call(Call::Strike(xy(0, 2)))?;
    script.form(&[(1, xy(0, 2))], 4)?;
    script.check(4, 10)?;
    script.call(Call::Strike(xy(0, 2)))
}

fn square_again(script: &mut Script) -> Result<(), AllocError> {
    script.rule(xy(0, 2), 1, &[0, 0, 1, 0])?;
    script.form(&[(1, xy(0, 2))], 4)?;
    script.call(Call::Lay(9))?;
    script.check(4, 10)?;
    script.form(&[(1, xy(0, 2))], 4)
}

pub fn square(heap: Global) -> Result<Vec<Line>, AllocError> {
    let mut script = Script::new(heap);
    square_rules(&mut script)?;
    square_checks(&mut script)?;
    square_forms(&mut script)?;
    square_tables(&mut script)?;
    square_verdicts(&mut script)?;
    square_again(&mut script)?;
    Ok(script.lines)
}

// x1² = i + 2x1, given with the leading code 1 + i, and a code that the field of order 9 does not have.
pub fn scaled(heap: Global) -> Result<Vec<Line>, AllocError> {
    let mut script = Script::new(heap);
    script.call(Call::Lay(1))?;
    script.call(Call::Term(xy(0, 0)))?;
    script.call(Call::Term(xy(1, 0)))?;
    script.call(Call::Close)?;
    script.rule(xy(2, 0), 4, &[5, 9])?;
    script.rule(xy(2, 0), 4, &[5, 8])?;
    script.check(2, 6)?;
    script.table(1, 4)?;
    script.cofactors(&[(3, xy(5, 0)), (7, xy(2, 0))], 2, 14)?;
    Ok(script.lines)
}

// S = 1, x1, x1x2, which does not hold x2.
pub fn chain(heap: Global) -> Result<Vec<Line>, AllocError> {
    let mut script = Script::new(heap);
    script.call(Call::Lay(2))?;
    script.call(Call::Term(xy(1, 0)))?;
    for t in [xy(0, 0), xy(1, 0), xy(1, 1)] {
        script.call(Call::Term(t))?;
    }
    script.call(Call::Term(xy(1, 0)))?;
    script.call(Call::Close)?;
    script.rule(xy(0, 1), 1, &[0, 0, 1])?;
    script.rule(xy(2, 0), 1, &[0, 1, 0])?;
    script.rule(xy(2, 1), 1, &[0, 0, 1])?;
    script.rule(xy(1, 1), 1, &[0, 0, 1])?;
    script.rule(xy(1, 2), 1, &[0, 0, 1])?;
    script.check(3, 8)?;
    script.cofactors(&[(1, xy(0, 2))], 3, 6)?;
    script.form(&[(1, xy(0, 24))], 3)?;
    script.form(&[(1, xy(0, 1)), (1, xy(1, 24))], 3)?;
    Ok(script.lines)
}

// S = 1, x1 with x2 = 1, x1² = 0, x1x2 = 0: of the products x2·x1 and x1·x2 of the clash one alone is a border term.
pub fn short(heap: Global) -> Result<Vec<Line>, AllocError> {
    let mut script = Script::new(heap);
    script.call(Call::Lay(2))?;
    script.call(Call::Term(xy(0, 0)))?;
    script.call(Call::Term(xy(1, 0)))?;
    script.call(Call::Close)?;
    script.rule(xy(0, 1), 1, &[1, 0])?;
    script.rule(xy(2, 0), 1, &[0, 0])?;
    script.rule(xy(1, 1), 1, &[0, 0])?;
    script.check(2, 6)?;
    Ok(script.lines)
}

// Thirty-two powers of x1 and one more; x1³² = 1; 64 pairs and one more; degree 24 and one more.
pub fn limits(heap: Global) -> Result<Vec<Line>, AllocError> {
    let mut script = Script::new(heap);
    script.call(Call::Lay(1))?;
    script.call(Call::Close)?;
    for k in 0..33 {
        script.call(Call::Term(xy(k, 0)))?;
    }
    script.call(Call::Term(xy(5, 0)))?;
    script.call(Call::Term(xy(0, 1)))?;
    script.call(Call::Close)?;
    let mut row = [0; 32];
    row[0] = 1;
    script.rule(xy(32, 0), 1, &row)?;
    script.check(32, 66)?;
    script.form(&[(1, xy(1, 0)); 64], 32)?;
    script.form(&[(1, xy(1, 0)); 65], 32)?;
    script.form(&[(2, xy(24, 0))], 32)?;
    script.form(&[(2, xy(24, 0)), (1, xy(25, 0))], 32)?;
    Ok(script.lines)
}
