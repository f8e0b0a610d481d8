//! What holds of every store that is opened and written, step by step.
ghost use Rattle.melon_board.specs.Lasting.{WritesKeepRows, InstallsKeepRows, SavesKeepRows, OpeningsKeepRows, OpeningsBegin, WritesContinue, InstallsContinue, SavesContinue, ReadSchemasHaveDifferentNames, ReadSchemasAreSound, KeptStoresOpenAgain};

/// Where what is kept of a store is what the store has, the same holds after every call that changes it.
pub fn writes_keep_rows()
    ensures written { WritesKeepRows }
    ensures installed { InstallsKeepRows }
    ensures saved { SavesKeepRows }
{}

/// An opened store has what is kept of it.
pub fn openings_keep_rows()
    ensures { OpeningsKeepRows }
{}

/// What is kept of a store whose schema was read opens again, with the store's rows and its timestamp.
pub fn kept_stores_open_again()
    ensures { KeptStoresOpenAgain }
{}

/// The journal of an open store is a legal history from the rows of its opening, and the rows now are its replay.
pub fn journals_stay_legal()
    ensures opened { OpeningsBegin }
    ensures written { WritesContinue }
    ensures installed { InstallsContinue }
    ensures saved { SavesContinue }
{}

/// A schema that is read declares no two tables of one name.
pub fn read_schemas_have_different_names()
    ensures { ReadSchemasHaveDifferentNames }
{}

/// The columns of its tables have different names, none of them reserved. So of a kept body `Raw::decode` finds nothing
/// only where it is the encoding of no row that fits.
pub fn read_schemas_are_sound()
    ensures { ReadSchemasAreSound }
{}
