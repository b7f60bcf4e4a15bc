//! What follows from the definitions alone: functions without a body that computes, whose contracts are the laws.
ghost use Rattle.std.specs.Prelude.{ℕ, ℤ, pos, ◌≡◌, ◌≢◌, ◌≤◌, ◌≤ℤ◌, ◌↔◌, ◌++◌, List, [], length, Option, Some};
ghost use Rattle.std.specs.List.{All};
ghost use Rattle.tqd_base.specs.World.{Bytes};
ghost use Rattle.tqd_base.specs.declared.limits.TheConstants.{LINE_MAX};
ghost use Rattle.tqd_instance.specs.declared.job.Job.{Job};
ghost use Rattle.tqd_instance.specs.Purchase.{Purchase};
ghost use Rattle.tqd_instance.specs.Feasible.{Feasible};
ghost use Rattle.tqd_instance.specs.Cost.{cost};
ghost use Rattle.interval_box.specs.declared.boxes.IntervalBox.{IntervalBox};
ghost use Rattle.interval_box.specs.Ranges.{IsBoxOf, IsRoot, IsIn};
ghost use Rattle.interval_box.specs.Halves.{IsProper};
ghost use Rattle.bound_tree.specs.declared.leaf.Leaf.{Leaf};
ghost use Rattle.bound_tree.specs.Prices.{Prices, Fits, row_of, AreFitting};
ghost use Rattle.bound_tree.specs.Value.{value, free_value};
ghost use Rattle.bound_tree.specs.Kills.{Kills, LeafFits, Shows};
ghost use Rattle.bound_tree.specs.BoxTree.{BoxTree, nodes_of, IsValid, ShowsAll};
ghost use Rattle.bound_tree.specs.Narrowed.{AreParts, IsPartOf, IsNarrowed};
ghost use Rattle.bound_tree.specs.OtherBox.{narrowed};
ghost use Rattle.bound_tree.specs.Root.{root_of};
ghost use Rattle.bound_tree.specs.SlotTree.{Item, SlotTree, items_of, IsSound, unfolded};
ghost use Rattle.bound_tree.specs.SlotText.{item_line, slot_text};
ghost use Rattle.bound_tree.specs.Shared.{IsTreeOf, shared};
ghost use Rattle.bound_tree.specs.declared.line.TreeLine.{TreeLine};
ghost use Rattle.bound_tree.specs.ReadLine.{read_line};
ghost use Rattle.bound_tree.specs.LineHead.{row_prices};
ghost use Rattle.bound_tree.specs.LineText.{line_text, IsSpelled};
ghost use Rattle.bound_tree.specs.TreeText.{leaf_line, tree_text};
ghost use Rattle.bound_tree.specs.TextLaws.{HasQuantities, HasRows, HasSlotRows, AreSame, ItemFits, IsTreeText};

/// Prices in one list are a row that fits a box exactly where there are as many as the box calls for, and all in range.
pub fn prices_fit_as_one_list()
    ensures { (job : Job) (area : IntervalBox) (prices : List ℤ) → Fits job area (row_of job prices) ↔ AreFitting job area prices }
{}

/// The halves of a proper split of a box are parts of it, so that a row of the box can be narrowed to each.
pub fn halves_are_parts()
    ensures { (job : Job) (area : IntervalBox) (i s : ℕ) → IsBoxOf job area → IsProper area i s → AreParts job area i s }
{}

/// No feasible purchase in a box costs less than the value of any row of prices.
pub fn no_purchase_costs_less_than_a_value()
    ensures { (job : Job) (area : IntervalBox) (row : Prices) (x : Purchase)
        → Feasible job x → IsIn job area x → value job area row ≤ℤ pos (cost job x) }
{}

/// The free value of a row is above 0 only where no purchase in the box is feasible.
pub fn no_purchase_has_a_free_value_above_zero()
    ensures { (job : Job) (area : IntervalBox) (row : Prices) (x : Purchase)
        → Feasible job x → IsIn job area x → free_value job area row ≤ℤ pos 0 }
{}

/// A leaf that kills a box against a cost shows that no feasible purchase in the box costs less, where it is a bound,
/// and else that no purchase in it is feasible.
pub fn killing_leaves_are_sound()
    ensures { (job : Job) (area : IntervalBox) (best : Option ℕ) (leaf : Leaf)
        → Kills job area best leaf → Shows job area best leaf }
{}

/// A tree that is valid for a box of a job against the cost of a purchase shows that no feasible purchase in the box costs
/// less, and one that is valid against none shows that no purchase in it is feasible.
pub fn valid_trees_are_sound()
    ensures { (job : Job) (area : IntervalBox) (best : Option ℕ) (tree : BoxTree)
        → IsBoxOf job area → IsValid job best area tree → ShowsAll job area best }
{}

/// A text is read as a line exactly where it is the text of that line: its word, and its numbers in their shortest
/// spelling with one space before each. Each number has at most 23 digits, and the text at most 65,536 bytes.
pub fn lines_are_read_by_their_texts()
    ensures { (text : Bytes) (line : TreeLine)
        → (read_line text ≡ Some line) ↔ (IsSpelled line × (text ≡ line_text line) × (length text ≤ LINE_MAX)) }
{}

/// No line has a line feed in it.
pub fn lines_have_no_line_feed()
    ensures { (line : TreeLine) → IsSpelled line → All (λ byte. byte ≢ 10) (line_text line) }
{}

/// A line without prices is short enough to be read back from its text.
pub fn lines_of_counts_are_read_back()
    ensures { (line : TreeLine) → IsSpelled line → row_prices line ≡ [] → read_line (line_text line) ≡ Some line }
{}

/// The line of a leaf whose row fits a box of a job is short enough to be read back from its text.
pub fn lines_of_leaves_are_read_back()
    ensures { (job : Job) (area : IntervalBox) (leaf : Leaf)
        → IsBoxOf job area → LeafFits job area leaf → read_line (line_text (leaf_line leaf)) ≡ Some (leaf_line leaf) }
{}

/// The line of an item is short enough to be read back from its text: a row that fits the root, with one of the 64
/// slots, or a node with numbers of at most 23 digits.
pub fn lines_of_items_are_read_back()
    ensures { (job : Job) (item : Item) → ItemFits job item → read_line (line_text (item_line item)) ≡ Some (item_line item) }
{}

/// For one job, with quantities within their limit, rows that have a price for each good, and numbers of at most 64
/// digits, two texts are the same only where the trees are, and the purchases are the same on the job.
pub fn tree_texts_differ()
    ensures { (job : Job) (plan other : Option Purchase) (tree tree' : BoxTree)
        → HasQuantities job plan → HasQuantities job other → HasRows job tree → HasRows job tree'
        → tree_text job plan (nodes_of tree) ≡ tree_text job other (nodes_of tree')
        → AreSame job plan other × (tree ≡ tree') }
{}

/// The same of trees with slots.
pub fn slot_texts_differ()
    ensures { (job : Job) (plan other : Option Purchase) (tree tree' : SlotTree)
        → HasQuantities job plan → HasQuantities job other → HasSlotRows job tree → HasSlotRows job tree'
        → slot_text job plan (items_of tree) ≡ slot_text job other (items_of tree')
        → AreSame job plan other × (tree ≡ tree') }
{}

/// No text of a tree is one of a tree with slots.
pub fn formats_differ()
    ensures { (job : Job) (plan other : Option Purchase) (tree : BoxTree) (tree' : SlotTree)
        → tree_text job plan (nodes_of tree) ≢ slot_text job other (items_of tree') }
{}

/// No text of a tree, in either format, is another with more bytes after it.
pub fn no_tree_text_begins_another()
    ensures { (job : Job) (text after : Bytes) → IsTreeText job text → IsTreeText job (text ++ after) → after ≡ [] }
{}

/// The root of a job is one box.
pub fn root_is_one_box()
    ensures { (job : Job) (area : IntervalBox) → IsRoot job area ↔ (area ≡ root_of job) }
{}

/// A tree that is valid for a box has proper splits and rows that fit their boxes.
pub fn valid_trees_are_trees()
    ensures { (job : Job) (area : IntervalBox) (best : Option ℕ) (tree : BoxTree)
        → IsValid job best area tree → IsTreeOf job area tree }
{}

/// A row that fits a box, as a row of a part of the box: it fits the part, has the same prices, and its values there are
/// not lower.
pub fn narrowed_rows_fit()
    ensures { (job : Job) (area part : IntervalBox) (row : Prices) → IsBoxOf job area → IsBoxOf job part
        → IsPartOf job part area → Fits job area row → IsNarrowed job area part row (narrowed job area part row) }
{}

/// A tree of the root, with its rows in slots, is sound, and its leaves name the rows that they have in the tree.
pub fn shared_trees_unfold()
    ensures { (job : Job) (tree : BoxTree) → IsTreeOf job (root_of job) tree
        → IsSound job (shared job tree) × (unfolded job (shared job tree) ≡ tree) }
{}
