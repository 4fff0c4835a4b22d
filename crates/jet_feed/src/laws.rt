// Laws of what is known of a feed.
ghost use Rattle.std.specs.Prelude.{◌≡◌, ◌++◌, ◌∷◌, [], ℕ, ℤ, List, Option, Some, None, true, false};
ghost use Rattle.jet_items.specs.declared.item.Item.{Item};
ghost use Rattle.jet_items.specs.declared.item.Item.TheVariants as item;
ghost use Rattle.jet_file.specs.Outside.{Told, rest_of};
ghost use Rattle.jet_flow.specs.DataFiles.{DataFile, SourceFile};
ghost use Rattle.jet_worker.specs.CheckText.{Checks, first_bad};
ghost use Rattle.jet_feed.specs.Fed.{IsFed, waiting};
ghost use Rattle.jet_feed.specs.FileItems.{file_items};
ghost use Rattle.jet_feed.specs.declared.feed.Feed.{Feed};
ghost use mathlib.Core.List.{IsPrefix};

/// A law: what the ring of a source file was sent is a front of the items of its lines, in their order. Done comes behind
/// all items of a file, source or side, and only where it was read to its end and has no bad line. The call does nothing.
pub fn what_a_ring_was_sent()
    ensures front { (c : Checks) (k : ℕ) (name : List ℕ) (lag : ℤ) (at : ℕ) (content : List ℕ) (told : Told) (items : List Item) (feed : Feed)
        → IsFed c (k, SourceFile name lag) at (Some content) (Some told) items feed → feed.ended ≡ false → IsPrefix items (file_items c (k, SourceFile name lag) content) }
    ensures whole { (c : Checks) (p : ℕ × DataFile) (at : ℕ) (content : List ℕ) (told : Told) (items : List Item) (feed : Feed)
        → IsFed c p at (Some content) (Some told) items feed → feed.ended ≡ true
        → (rest_of told at ≡ []) × (first_bad c p content ≡ None) × (items ++ waiting feed ≡ file_items c p content ++ item.Done ∷ []) }
{}

/// A law: what is done to other files and to the outputs leaves what is known of a feed. The call does nothing.
pub fn a_feed_stays()
    ensures { (c : Checks) (p : ℕ × DataFile) (at : ℕ) (content : Option (List ℕ)) (told next : Told) (items : List Item) (feed : Feed)
        → rest_of next at ≡ rest_of told at → IsFed c p at content (Some told) items feed → IsFed c p at content (Some next) items feed }
{}
