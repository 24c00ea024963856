// The lamp: a bell that knows one task.
ghost use Rattle.bells_model.specs.Lamps.{shining};
ghost use Rattle.bells_model.specs.Lights.{shining_known};

use bells::Bell;

#[derive(Drop)]
pub struct Lamp {
    lit: bool,
}

impl Bell for Lamp {
    const KNOWN: usize = 1;

    ghost KNOWN = { 1 };

    ghost meaning = { λ l. shining l.lit };

    ghost within = { λ l t due. shining_known l.lit t due };

    fn new() -> Lamp {
        Lamp { lit: false }
    }

    fn ring(&mut self, task: usize) -> bool {
        if !Self::knows(task) {
            return false;
        }
        self.lit = true;
        true
    }

    fn due(&self, task: usize) -> bool {
        Self::knows(task) && self.lit
    }

    fn tally(&self) -> usize {
        usize::from(self.lit)
    }

    fn collect(&mut self, task: usize) -> bool {
        let was = self.due(task);
        if was {
            self.lit = false;
        }
        was
    }
}
