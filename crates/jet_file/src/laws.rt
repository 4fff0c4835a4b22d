// Laws of the definitions of an outside. Their functions do nothing: what they promise holds of all that it speaks of.
// They are for a loop that reads a file to its end, and for one that counts what calls took and wrote.
ghost use Rattle.std.specs.Prelude.{◌≡◌, ◌≤◌, ◌+◌, ◌++◌, [], ℕ, List, length, take, drop, Option, Some};
ghost use Rattle.jet_file.specs.Outside.{CallMade, WhereTold, OpensFile, ReadsFile, Told, rest_of};
ghost use Rattle.jet_file.specs.Pace.{taken_by, wrote_by};
ghost use Rattle.jet_file.specs.Reading.{HasRead, HasReadAll};
ghost use Rattle.jet_file.specs.declared.outside.Out.{Out};

/// All of a newly opened file is left, and a read of n bytes leaves all behind the first n.
pub fn what_is_left_of_a_file()
    ensures opened { (name content : List ℕ) (file : ℕ) (old now : Told) → old.content name ≡ Some content → OpensFile name file old now → rest_of now file ≡ content }
    ensures read { (file : ℕ) (buffer : List ℕ) (n : ℕ) (now next : Told) → ReadsFile file buffer n now next → rest_of next file ≡ drop n (rest_of now file) }
{}

/// Reads of one file one after another: none at first, one more with its bytes, and all once one gave no byte. The same
/// holds of an outside that need not tell what it does.
pub fn reads_go_on()
    ensures start { (file : ℕ) (old : Told) → HasRead file [] old old }
    ensures more { (file : ℕ) (bytes buffer : List ℕ) (n : ℕ) (old now next : Told) → n ≤ length buffer → HasRead file bytes old now
        → ReadsFile file buffer n now next → HasRead file (bytes ++ take n buffer) old next }
    ensures end { (file : ℕ) (bytes buffer : List ℕ) (n : ℕ) (old now next : Told) → n ≡ 0 → HasRead file bytes old now
        → ReadsFile file buffer n now next → HasReadAll file bytes old next }
    ensures goes_start { (file : ℕ) (old : Option Told) → WhereTold (HasRead file []) old old }
    ensures goes_more { (file : ℕ) (bytes buffer : List ℕ) (n : ℕ) (old now next : Option Told) → n ≤ length buffer → WhereTold (HasRead file bytes) old now
        → WhereTold (ReadsFile file buffer n) now next → WhereTold (HasRead file (bytes ++ take n buffer)) old next }
    ensures goes_end { (file : ℕ) (bytes buffer : List ℕ) (n : ℕ) (old now next : Option Told) → n ≡ 0 → WhereTold (HasRead file bytes) old now
        → WhereTold (ReadsFile file buffer n) now next → WhereTold (HasReadAll file bytes) old next }
{}

/// What was read of a newly opened file until nothing was left is its content, and all of it is taken.
pub fn a_file_is_read_whole()
    ensures content { (name content bytes : List ℕ) (file : ℕ) (old opened now : Told) → old.content name ≡ Some content → OpensFile name file old opened
        → HasReadAll file bytes opened now → bytes ≡ content }
    ensures place { (name content bytes : List ℕ) (file : ℕ) (old opened now : Told) → old.content name ≡ Some content → OpensFile name file old opened
        → HasReadAll file bytes opened now → now.place file ≡ record { name = name; taken = length content } }
{}

/// What calls took and wrote, and what more calls did, add up.
pub fn calls_add_up()
    ensures taken { (file : ℕ) (calls more : List CallMade) → taken_by file (calls ++ more) ≡ taken_by file calls + taken_by file more }
    ensures wrote { (out : Out) (calls more : List CallMade) → wrote_by out (calls ++ more) ≡ wrote_by out calls + wrote_by out more }
{}
