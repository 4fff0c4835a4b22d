// Laws of the definitions. Their functions do nothing: what they promise holds of all that it speaks of.
//
// The first four say that what is read from the left, and what csv reads, is what the grammar says, and that
// `Lines::next` has one right answer. Those that follow are for a loop over the lines of a source file (`events`) or
// of a side file (`sides`): it has read some lines, all of them good, and takes one more. `lines_of_a_file_rise` says in
// which order events and idle notes stand, and the last ones what one line gives.
ghost use Rattle.std.specs.Prelude.{◌≡◌, ◌≢◌, ◌↔◌, ◌+◌, ◌<◌, ◌≤◌, ◌∷◌, ◌++◌, [], ℕ, List, length, map, filter_map, All, AllPairs, Option, Some, None, Result, Ok, Err, is_ok, true};
ghost use Rattle.std.specs.List.{enumerate_from, list_all};
ghost use Rattle.csv.specs.Machine.{next_record};
ghost use Rattle.csv.specs.Reading.{default_config, strip_bom};
ghost use Rattle.csv.specs.declared.parser.State.TheVariants as state;
ghost use Rattle.jet_lines.specs.Cutting.{NextIs};
ghost use Rattle.jet_lines.specs.Files.{are_good, EndAt, events_of, fault_of, first_bad_line, first_of, GoOn, HoldAll, idles_of, item_of, items_of, numbered_at, readings_in, whole_lines};
ghost use Rattle.jet_lines.specs.Feeds.{NoFeed};
ghost use Rattle.jet_lines.specs.Grammar.{IsLine, is_line_byte};
ghost use Rattle.jet_lines.specs.Lines.{lines_of};
ghost use Rattle.jet_lines.specs.LinesValue.{LinesValue};
ghost use Rattle.jet_lines.specs.Readings.{event_line, idle_line, side_line};
ghost use Rattle.jet_items.specs.Values.{EventValue, SideValue};
ghost use Rattle.jet_lines.specs.Scan.{fields_of};
ghost use Rattle.jet_lines.specs.declared.cut.Cut.{Cut};
ghost use Rattle.jet_lines.specs.declared.fault.LineFault.{LineFault};
ghost use Rattle.jet_lines.specs.declared.fault.LineFault.TheVariants.{TooLong, TooMany};

/// The fields that are read of a line are those of which the grammar makes it, and no others.
pub fn fields_are_of_the_grammar()
    ensures { (line : List ℕ) (fields : List (List ℕ)) → (fields_of line ≡ Some fields) ↔ IsLine line fields }
{}

/// No fields are read of a line exactly where the grammar makes it of none.
pub fn no_fields_where_the_grammar_has_none()
    ensures { (line : List ℕ) → (fields_of line ≡ None) ↔ ((fields : List (List ℕ)) → IsLine line fields → ⊥) }
{}

/// What csv reads of a line, where its bytes and its form are good, are its fields, and then nothing is left.
pub fn csv_reads_the_fields()
    ensures { (line : List ℕ) (fields : List (List ℕ)) → line ≢ [] → list_all is_line_byte line ≡ true → fields_of line ≡ Some fields
        → next_record default_config state.StartRecord [] [] (strip_bom line) ≡ Some (fields, state.StartRecord, []) }
{}

/// What `Lines::next` answers is settled by what it has: no two of its answers can both be right.
pub fn answers_are_settled()
    ensures { (v x y : LinesValue) (a b : Cut) → NextIs v a x → NextIs v b y → a ≡ b }
{}

/// One more good line: the lines are good still, and give what they gave and what that line holds, if anything.
pub fn a_good_line_more()
    ensures events { (part most : ℕ) (given : List (List ℕ)) (line : List ℕ) (found : Option EventValue)
        → are_good (event_line part) most given ≡ true → length given < most → event_line part (length given + 1) line ≡ Ok found
        → GoOn (event_line part) most given line found }
    ensures sides { (most : ℕ) (given : List (List ℕ)) (line : List ℕ) (found : Option SideValue)
        → are_good side_line most given ≡ true → length given < most → side_line (length given + 1) line ≡ Ok found
        → GoOn side_line most given line found }
{}

/// Behind good lines a line with a fault is the first bad one, and the file gives what was given before it.
pub fn the_first_bad_line()
    ensures events { (part most : ℕ) (content : List ℕ) (given : List (List ℕ)) (line : List ℕ) (others : List (List ℕ)) (fault : LineFault)
        → are_good (event_line part) most given ≡ true → lines_of content ≡ given ++ line ∷ others → length given < most → event_line part (length given + 1) line ≡ Err fault
        → EndAt (event_line part) most content given fault }
    ensures sides { (most : ℕ) (content : List ℕ) (given : List (List ℕ)) (line : List ℕ) (others : List (List ℕ)) (fault : LineFault)
        → are_good side_line most given ≡ true → lines_of content ≡ given ++ line ∷ others → length given < most → side_line (length given + 1) line ≡ Err fault
        → EndAt side_line most content given fault }
{}

/// The same of a line with more than 512 bytes, whatever they are.
pub fn a_line_too_long()
    ensures events { (part most : ℕ) (content : List ℕ) (given : List (List ℕ)) (line : List ℕ) (others : List (List ℕ))
        → are_good (event_line part) most given ≡ true → lines_of content ≡ given ++ line ∷ others → length given < most → 512 < length line
        → EndAt (event_line part) most content given TooLong }
    ensures sides { (most : ℕ) (content : List ℕ) (given : List (List ℕ)) (line : List ℕ) (others : List (List ℕ))
        → are_good side_line most given ≡ true → lines_of content ≡ given ++ line ∷ others → length given < most → 512 < length line
        → EndAt side_line most content given TooLong }
{}

/// The same of a line more than the file may have, whatever it is.
pub fn one_line_too_many()
    ensures events { (part most : ℕ) (content : List ℕ) (given : List (List ℕ)) (line : List ℕ) (others : List (List ℕ))
        → are_good (event_line part) most given ≡ true → lines_of content ≡ given ++ line ∷ others → most ≤ length given
        → EndAt (event_line part) most content given TooMany }
    ensures sides { (most : ℕ) (content : List ℕ) (given : List (List ℕ)) (line : List ℕ) (others : List (List ℕ))
        → are_good side_line most given ≡ true → lines_of content ≡ given ++ line ∷ others → most ≤ length given
        → EndAt side_line most content given TooMany }
{}

/// Where all lines are good none is the first bad one, and the file gives what its lines hold, in their order.
pub fn all_lines_are_good()
    ensures events { (part most : ℕ) (content : List ℕ)
        → are_good (event_line part) most (lines_of content) ≡ true
        → HoldAll (event_line part) most content }
    ensures sides { (most : ℕ) (content : List ℕ)
        → are_good side_line most (lines_of content) ≡ true
        → HoldAll side_line most content }
{}

/// The lines that end with a line feed are those of the bytes up to and with the last one.
pub fn whole_lines_end_with_a_line_feed()
    ensures some { (front rest : List ℕ) → NoFeed rest (length rest) → whole_lines (front ++ 10 ∷ rest) ≡ lines_of (front ++ 10 ∷ []) }
    ensures none { (rest : List ℕ) → NoFeed rest (length rest) → whole_lines rest ≡ [] }
{}

/// Lines that are the file's first ones however it goes on end with a line feed each; and there are no others where no
/// line feed is left.
pub fn given_lines_are_whole()
    ensures among { (content rest : List ℕ) (given : List (List ℕ)) → ((more : List ℕ) → lines_of (content ++ more) ≡ given ++ lines_of (rest ++ more))
        → (others : List (List ℕ)) × (whole_lines content ≡ given ++ others) }
    ensures all { (content rest : List ℕ) (given : List (List ℕ)) → ((more : List ℕ) → lines_of (content ++ more) ≡ given ++ lines_of (rest ++ more))
        → NoFeed rest (length rest) → whole_lines content ≡ given }
{}

/// The events of a source file carry its number, and their lines rise from 1 on. So do the lines of its idle notes, none of
/// which is the line of an event; and notes are read up to the line at which the events end.
pub fn lines_of_a_file_rise()
    ensures part { (part most : ℕ) (bytes : List ℕ) → All (λ e. e.part ≡ part) (events_of most part bytes) }
    ensures events_from_one { (part most : ℕ) (bytes : List ℕ) → All (λ e. 1 ≤ e.line) (events_of most part bytes) }
    ensures events_rise { (part most : ℕ) (bytes : List ℕ) → AllPairs (λ d e. d.line < e.line) (events_of most part bytes) }
    ensures idles_from_one { (most : ℕ) (bytes : List ℕ) → All (λ n. 1 ≤ n) (idles_of most bytes) }
    ensures idles_rise { (most : ℕ) (bytes : List ℕ) → AllPairs (λ m n. m < n) (idles_of most bytes) }
    ensures apart { (part most : ℕ) (bytes : List ℕ) → All (λ e. All (λ n. n ≢ e.line) (idles_of most bytes)) (events_of most part bytes) }
    ensures same_end { (part most : ℕ) (bytes : List ℕ) → first_bad_line idle_line most bytes ≡ first_bad_line (event_line part) most bytes }
{}

/// The event of a line has the number of its file and of the line.
pub fn an_event_has_its_place()
    ensures part { (part number : ℕ) (line : List ℕ) (e : EventValue) → event_line part number line ≡ Ok (Some e) → e.part ≡ part }
    ensures line { (part number : ℕ) (line : List ℕ) (e : EventValue) → event_line part number line ≡ Ok (Some e) → e.line ≡ number }
{}

/// A line with more than 512 bytes has the fault `TooLong`, whatever its bytes are.
pub fn a_long_line_has_its_fault()
    ensures events { (part number : ℕ) (line : List ℕ) → 512 < length line → event_line part number line ≡ Err TooLong }
    ensures sides { (number : ℕ) (line : List ℕ) → 512 < length line → side_line number line ≡ Err TooLong }
{}

/// A line holds what it is read as where the file may have so many lines, and else has the fault `TooMany`.
pub fn a_line_is_read_by_its_number()
    ensures events { (part most n : ℕ) (line : List ℕ) → n < most → numbered_at (event_line part) most (n + 1, line) ≡ event_line part (n + 1) line }
    ensures events_over { (part most n : ℕ) (line : List ℕ) → most ≤ n → numbered_at (event_line part) most (n + 1, line) ≡ Err TooMany }
    ensures sides { (most n : ℕ) (line : List ℕ) → n < most → numbered_at side_line most (n + 1, line) ≡ side_line (n + 1) line }
    ensures sides_over { (most n : ℕ) (line : List ℕ) → most ≤ n → numbered_at side_line most (n + 1, line) ≡ Err TooMany }
{}

/// What the lines of a side file hold, taken apart at one line; and what such readings give, also where a caller made a
/// fault of some, as of a row too many of one key.
pub fn side_lines_are_read_in_order()
    ensures apart { (most : ℕ) (given : List (List ℕ)) (line : List ℕ) (others : List (List ℕ)) → readings_in side_line most (given ++ line ∷ others)
        ≡ readings_in side_line most given ++ numbered_at side_line most (length given + 1, line)
        ∷ map (numbered_at side_line most) (enumerate_from (length given + 1 + 1) others) }
    ensures count { (most : ℕ) (lines : List (List ℕ)) → length (readings_in side_line most lines) ≡ length lines }
    ensures good { (good : List (Result (Option SideValue) LineFault)) → list_all is_ok good ≡ true → items_of good ≡ filter_map item_of good }
    ensures no_fault { (n : ℕ) (good : List (Result (Option SideValue) LineFault)) → list_all is_ok good ≡ true → filter_map fault_of (enumerate_from n good) ≡ [] }
    ensures first_fault { (n : ℕ) (good later : List (Result (Option SideValue) LineFault)) (fault : LineFault) → list_all is_ok good ≡ true
        → first_of (filter_map fault_of (enumerate_from n (good ++ Err fault ∷ later))) ≡ Some (n + length good, fault) }
{}
