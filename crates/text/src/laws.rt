//! The law of bytes as text: its contract is the theorem, and it does nothing.
ghost use Rattle.text.specs.Laws.{ComesBack};

/// What is printed of bytes is read as those bytes.
pub fn text_comes_back()
    ensures { ComesBack }
{}
