use crate::draft::Draft;
use ug_drafts::{ColumnDraft, RowDraft};

impl Draft {
    /// The data kept of each column and of each row, without their names.
    pub fn into_kept(self) -> (Vec<ColumnDraft>, Vec<RowDraft>) {
        let Draft {
            rows,
            columns,
            begun,
            set,
            ..
        } = self;
        drop(begun);
        drop(set);
        let (names, columns) = columns.into_parts();
        drop(names);
        let (names, rows) = rows.into_parts();
        drop(names);
        (columns, rows)
    }
}
