//! An operator's line that stands outside the rows that hold it.
ghost use Rattle.std.specs.Prelude.{◌≡◌, IfOk};

use base_types::NoMemory;
use conman_syntax::Line;
use std::alloc::Global;
use std::marker::Model;
use std::rc::Rc;

/// An operator's line, which whoever takes it once more shares. A row that holds one is as small as a row without one. A
/// contract sees it as the line.
pub struct SharedLine {
    line: Rc<Line>,
}

/// Written out, so that dropping one is a call for whoever owns it.
impl Drop for SharedLine {
    fn drop(self) {
        let SharedLine { line: _line } = self;
    }
}

impl Model for SharedLine {
    ghost use Rattle.conman_syntax.specs.declared.lines.Line.{Line as Lines};

    ghost Value = { Lines };

    ghost view = { λ l. l.line.value };
}

impl SharedLine {
    /// Takes a line, which nobody can change from then on.
    pub fn of(alloc: Global, line: Line) -> Result<SharedLine, NoMemory>
        ensures { IfOk result (λ l. l ≡ line) }
    {
        match Rc::new(alloc, line) {
            Ok(line) => Ok(SharedLine { line }),
            Err(_) => Err(NoMemory),
        }
    }

    /// The line.
    pub fn line(&self) -> &Line
        ensures { result.now ≡ self.now }
    {
        self.line.as_ref()
    }

    /// The same line once more. None of its parts is copied.
    pub fn shared(&self) -> Result<SharedLine, NoMemory>
        ensures { IfOk result (λ l. l ≡ self.now) }
    {
        match self.line.clone() {
            Ok(line) => Ok(SharedLine { line }),
            Err(_) => Err(NoMemory),
        }
    }
}
