//! Examples of a page's parts: a node's entries, cut from its bytes one after another.
#![tactic(auto)]

#[cfg(test)]
mod tests {
    use keys::lot::Lot;
    use page::rows::Entries;

    #[test]
    fn each_entry_that_counts_is_cut(rt: HostRuntime) {
        let rows = [
            0x07, 0xea, 3, 0, 0, 0, 17, 0, 0, 1, 2, // 2026-3-17, record 258
            0x07, 0xea, 3, 0, 0, 0, 18, 0, 0, 0, 9, // 2026-3-18, record 9
            0x07, 0xeb, 1, 0, 0, 0, 1, 0, 0, 0, 7, // not counted
            0xaa, // too short for an entry
        ];
        let entries = Entries::<Lot>::of(&rows, 2);
        let mut each = entries.each();
        assert_eq!(rt; each.next(), Some(&rows[..11]));
        assert_eq!(rt; each.next(), Some(&rows[11..22]));
        assert_eq!(rt; each.next(), None);
        assert_eq!(rt; entries.each_to_last().len(), 2);
        for (entry, same) in entries.each().zip(entries.each_to_last()) {
            assert_eq!(rt; entry, same);
        }
        assert_eq!(rt; Entries::<Lot>::of(&rows, 0).each().next(), None);
    }
}
