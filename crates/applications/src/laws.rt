//! What the applications promise over any sequence of commands.
ghost use Rattle.applications.specs.Metre.{metre};
ghost use Rattle.applications.specs.MetreLaws.{MetreLaws};
ghost use Rattle.applications.specs.Yarn.{yarn};
ghost use Rattle.applications.specs.YarnLaws.{YarnLaws};

/// The record remembers what good writes put there, and reads return it.
pub fn yarn_laws_hold()
    ensures { YarnLaws yarn }
{}

/// The count and all metres drawn are the count at the start.
pub fn metre_laws_hold()
    ensures { MetreLaws metre }
{}
