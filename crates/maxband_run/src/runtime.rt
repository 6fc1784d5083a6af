//! The runtime as the system: each call of it, and nothing else. It tells nothing of what it gives, so the contracts of these calls say
//! nothing here, and that of the program is proved for whatever tells more.

use crate::system::System;
use narrow_fraction::Memory;
use outer_edge::{RealFiles, RealOut};
use std::rt::Env;
use std::{env, io, rt};

impl<R: Env + rt::Files + Print + AllocGlobal + Clone + Drop> System for R {
    type Files = RealFiles<R>;

    type Out = RealOut<R>;

    ghost Gives = { λ r words. Unit {0} };

    ghost Refuses = { λ r. Unit {0} };

    ghost Opens = { λ r files out. Unit {0} };

    ghost Closes = { λ r files out. Unit {0} };

    fn words(&self) -> io::Result<env::Args> {
        env::args(self)
    }

    fn open(&self) -> Result<(RealFiles<R>, RealOut<R>), Memory> {
        let alloc = self.alloc();
        Ok((RealFiles::new(self, alloc)?, RealOut::new(self, alloc)?))
    }

    fn close(self, _files: RealFiles<R>, _out: RealOut<R>) {}
}
