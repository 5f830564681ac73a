//! What is asked of single elements.
use crate::row::Row;
use crate::text::Answer;
use nd_grid::operation::{combine, fold_two, negate_element, neutral, pick};
use nd_grid::{Binary, Fold};

/// An operation on two elements, by its sign or its name.
pub fn binary(name: &str) -> Binary {
    match name {
        "+" => Binary::Add,
        "-" => Binary::Sub,
        "*" => Binary::Mul,
        "//" => Binary::FloorDiv,
        "%" => Binary::Rem,
        "minimum" => Binary::Minimum,
        _ => Binary::Maximum,
    }
}

/// An operation that folds elements into one, by its name.
pub fn fold(name: &str) -> Fold {
    match name {
        "sum" => Fold::Sum,
        "prod" => Fold::Prod,
        "min" => Fold::Min,
        _ => Fold::Max,
    }
}

/// `element OPERATION LEFT RIGHT`: an operation on two elements.
pub fn element(row: &mut Row, out: &mut Answer) {
    let op = binary(row.word());
    let left = row.optional();
    let right = row.optional();
    out.put_maybe(combine(op, left, right));
}

/// `pick CONDITION YES NO`: the element that a condition chooses.
pub fn picked(row: &mut Row, out: &mut Answer) {
    let condition = row.optional();
    let yes = row.optional();
    let no = row.optional();
    out.put_maybe(pick(condition, yes, no));
}

/// `negative ELEMENT`: an element negated.
pub fn negative(row: &mut Row, out: &mut Answer) {
    out.put_item(negate_element(row.number()));
}

fn put_folded(out: &mut Answer, fold: Fold, elements: &[i64]) {
    let mut total = neutral(fold);
    for element in elements {
        total = fold_two(fold, total, *element);
    }
    out.put_item(total);
}

/// `fold FOLD ELEMENTS`: elements folded into one.
pub fn folded(row: &mut Row, out: &mut Answer) {
    let fold = fold(row.word());
    put_folded(out, fold, &row.numbers());
}
