// What is known of each book of notes.
ghost use Rattle.crew_work.specs.Worker.KnownLayouts.{IsBook};

use task_text::chunk_log::NoteBook;

/// Nothing is done: a book is in order, and of chunks that hold something, however it was made.
pub fn know_book(book: &NoteBook)
    ensures { IsBook book.now }
{
    let _line = book.line(0);
}
