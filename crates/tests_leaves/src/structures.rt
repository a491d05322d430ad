// Texts of refusals, and what a counter takes.
use no_memory::Memory;
use sparse_cols::{SparseCol, SparseFault};
use std::alloc::AllocError;
use std::marker::Brand;
use std::test::Fail;
use step_counter::Steps;

#[test]
fn faults_come_in_order_and_have_texts(rt: HostRuntime) -> Result<(), Fail> {
    let alloc = rt.alloc();
    let beyond = SparseCol::from_pairs(8, vec![in alloc; (3, 1), (9, 1), (3, 1), (8, 1)]?).err();
    let twice = SparseCol::from_pairs(8, vec![in alloc; (6, 1), (3, 2), (6, 3), (3, 4)]?).err();
    let text = format!(in alloc; "{beyond:?}, {twice:?}, {}", Memory::from(AllocError))?;
    assert_eq!(rt;
        text.as_str(),
        "Some(Range(9)), Some(Repeated(3)), out of memory"
    );
    let (range, repeated) = (SparseFault::Range(9), SparseFault::Repeated(3));
    let text = format!(in alloc; "{range}; {repeated}")?;
    assert_eq!(rt; text.as_str(), "row 9 is out of range; row 3 stands twice");
    Ok(())
}

#[test]
fn a_counter_takes_no_bytes(rt: HostRuntime) {
    assert_eq!(rt; size_of::<Steps<Brand>>(), 0);
}
