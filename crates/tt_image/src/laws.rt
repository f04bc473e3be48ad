//! The laws of the definitions, each the contract of a function that does nothing.
ghost use Rattle.tt_image.specs.Laws.{ClosingKeepsPages, FinishedFilesRead, HeadsAreTrue, WritingKeepsOtherPages};

/// A file that was closed has a closed gate, the length of a header, and its pages.
pub fn closing_keeps_pages()
    ensures { ClosingKeepsPages }
{}

/// Behind pages that were written each page is its last copy, and every other page is as it was.
pub fn writing_keeps_other_pages()
    ensures { WritingKeepsOtherPages }
{}

/// A file that was finished reads as whole, with its header and the pages that it had.
pub fn finished_files_read()
    ensures { FinishedFilesRead }
{}

/// A closed gate reads as closed, and what reads as whole has its pages and a header in range.
pub fn heads_are_true()
    ensures { HeadsAreTrue }
{}
