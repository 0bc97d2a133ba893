//! Changes links of small graphs as lines of the standard input say, and writes the graphs then, or a closure.
//!
//! A line has acts with `;` between them, of which the last one changes a link or asks for a closure. Objects and places of relationships are
//! digits: `n2` makes an object of class 2, `k13` registers object 1 under the key 3 (`k135` under 3 and 5), `t1d` puts it
//! into a state (`d` detached, `e` deleted, `p` pending), `o1` makes it an orphan, `c125` puts 5 into cell 2 of object 1 and
//! `x12` expires it. `e123*` lets link 2 of object 1 lead to object 3 (0 for none), `*` for a changed link; `m12 34/3` loads
//! it with the members 3 and 4 over the base 3, and `l12 34/5` unloads it with the kept adds 3 and 4 and the kept remove 5.
//! `s123` sets link 2 of object 1 to object 3, `a123` and `r123` append it and remove it. `gu1` asks for the closure of object 1
//! along save-update (`x` for refresh-expire, `p` for expunge, `d` for delete), and `gu13` for what is reached from 1 and 3.
//! `w1` marks object 1 for deletion, `y125` puts 5 into cell 2 of object 1 as what its row holds too, and `f` asks what a flush decides.
//! `b` reads what a flush is to know before, where of the tables that of nodes was made alone and has no row.
//!
//! A line of the output has the answer, and behind each object's number its links: `.` for an unset one, the others as the
//! acts have them; `!` behind the number of an orphan. Of a closure it has the objects, and of a flush the
//! objects that go, those that are new no more, the links that become none, and the object of which something is to be read before.
#![tactic(auto)]

mod mapping;
mod play;
mod reading;
mod told;

use base_core::Refusal;
use mapping::declare_all;
use notations::Page;
use play::answer;
use std::alloc::Global;
use std::io;

/// The answers to lines.
fn answers(alloc: Global, text: &str) -> Result<String, Refusal> {
    let mut page = Page::new(alloc);
    let mapping = declare_all(&mut page)?;
    for line in text.lines() {
        answer(&mapping, line, &mut page)?;
        page.push('\n');
    }
    Ok(page.into_text()?)
}

fn main(rt: HostRuntime) -> io::Result<()> {
    let alloc = rt.alloc();
    let text = io::read_to_string(alloc, rt.reader())?;
    match answers(alloc, &text) {
        Ok(said) => rt.print(said),
        Err(_) => rt.println("refused"),
    }
}
