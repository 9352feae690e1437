//! What a copy leaves of which one side is a file, and which of its steps keep what stands of it: the laws, as contracts of functions that do
//! nothing.

ghost use Rattle.lnbd_copyfile.specs.OneSide.{BeginningKeeps, FromFileIsCopied, FromFileIsSummed, GoingKeeps, LoadingKeeps, ToFileIsCopied, ToFileIsSummed, ToldFilesLast};
ghost use Rattle.lnbd_copyfile.specs.ToFileJob.{NothingHangs};

/// What stands of a copy to a file goes on where rows of the board do, and where a slice begins with a change.
pub fn making_keeps()
    ensures going { GoingKeeps }
    ensures beginning { BeginningKeeps }
{}

/// What stands of a copy from a file goes on where a slice is read.
pub fn loading_keeps()
    ensures { LoadingKeeps }
{}

/// A file to which all is copied is what the source holds, and a destination to which all of a file is copied holds it. No other file changed.
pub fn all_is_copied()
    ensures to_file { ToFileIsCopied }
    ensures from_file { FromFileIsCopied }
{}

/// The store took as many bytes as were written and zeroed, and gave as many as were read; and a file never ends before what it told, where the
/// store tells its files.
pub fn all_is_summed()
    ensures to_file { ToFileIsSummed }
    ensures from_file { FromFileIsSummed }
    ensures lasts { ToldFilesLast }
{}

/// What is under way in a copy to a file awaits something of the export, where it has nothing to do.
pub fn nothing_hangs()
    ensures { NothingHangs }
{}
