//! What each stage tells, and the answer that it gives.
ghost use Rattle.std.specs.Prelude.{refl};
ghost use Rattle.stages.specs.Setups.{setup_seen};
ghost use Rattle.stages.specs.Stages.{unwoken_seen, asking_seen, woken_seen, failed_seen, idle_seen, busy_seen, ended_seen, closing_seen, closed_seen};

use super::calls::{Fetch, Linked, Stage};
use super::{Asking, Busy, Closed, Closing, Ended, Failed, Idle, Unwoken, Woken};
use crate::view::View;
use exchange::{Exchange, Link};

impl Stage for Unwoken {
    ghost settings = { λ s. setup_seen s.setup };

    ghost reader = { unwoken_seen };

    fn view(&self) -> View {
        View::blank()
    }
}

impl Stage for Asking {
    ghost settings = { λ s. setup_seen s.setup };

    ghost reader = { asking_seen };

    fn view(&self) -> View {
        View::blank()
    }
}

impl Stage for Woken {
    ghost settings = { λ s. setup_seen s.setup };

    ghost reader = { woken_seen };

    fn view(&self) -> View {
        View::of(&self.exchange)
    }
}

impl Stage for Failed {
    ghost settings = { λ s. setup_seen s.asking.setup };

    ghost reader = { failed_seen };

    fn view(&self) -> View {
        View::blank()
    }
}

impl Stage for Idle {
    ghost settings = { λ s. setup_seen s.setup };

    ghost reader = { idle_seen };

    fn view(&self) -> View {
        View::of(&self.exchange)
    }
}

impl Stage for Busy {
    ghost settings = { λ s. setup_seen s.setup };

    ghost reader = { busy_seen };

    fn view(&self) -> View {
        View::of(self.running.exchange())
    }
}

impl Stage for Ended {
    ghost settings = { λ s. setup_seen s.setup };

    ghost reader = { ended_seen };

    fn view(&self) -> View {
        View::of(&self.exchange)
    }
}

impl Stage for Closing {
    ghost settings = { λ s. setup_seen s.setup };

    ghost reader = { closing_seen };

    fn view(&self) -> View {
        self.latest.as_ref().map_or(View::blank(), View::of)
    }
}

impl Stage for Closed {
    ghost settings = { λ s. setup_seen s.closing.setup };

    ghost reader = { closed_seen };

    fn view(&self) -> View {
        self.closing.view()
    }
}

impl Fetch for Unwoken {
    ghost open = { λ _. refl };

    fn answer(&self) -> &[u8] {
        &[]
    }
}

impl Fetch for Asking {
    ghost open = { λ _. refl };

    fn answer(&self) -> &[u8] {
        &[]
    }
}

impl Fetch for Woken {
    ghost open = { λ _. refl };

    fn answer(&self) -> &[u8] {
        self.exchange.answer()
    }
}

impl Fetch for Failed {
    ghost open = { λ _. refl };

    fn answer(&self) -> &[u8] {
        &[]
    }
}

impl Fetch for Idle {
    ghost open = { λ _. refl };

    fn answer(&self) -> &[u8] {
        self.exchange.answer()
    }
}

impl Fetch for Busy {
    ghost open = { λ _. refl };

    fn answer(&self) -> &[u8] {
        self.running.exchange().answer()
    }
}

impl Fetch for Ended {
    ghost open = { λ _. refl };

    fn answer(&self) -> &[u8] {
        self.exchange.answer()
    }
}

impl Fetch for Closing {
    ghost open = { λ _. refl };

    fn answer(&self) -> &[u8] {
        self.latest.as_ref().map_or(&[], Exchange::answer)
    }
}

impl Linked for Woken {
    fn link(&self) -> Link {
        self.exchange.link()
    }
}

impl Linked for Idle {
    fn link(&self) -> Link {
        self.exchange.link()
    }
}

impl Linked for Busy {
    fn link(&self) -> Link {
        self.running.exchange().link()
    }
}

impl Linked for Ended {
    fn link(&self) -> Link {
        self.exchange.link()
    }
}
