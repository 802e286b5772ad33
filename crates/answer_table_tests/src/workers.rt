use crate::shared_squares;

#[test]
fn workers_fill_all_words(rt: HostRuntime) {
    for workers in [1, 2, 64, 64] {
        let all = shared_squares(&rt, rt.alloc(), 10_000, workers).expect(&rt, "there is memory");
        assert_eq!(rt; all.len(), 10_000);
        for (word, answer) in [(0, 1), (1, 2), (4_999, 24_990_002), (9_999, 99_980_002)] {
            assert_eq!(rt; all.get(word), Some(&answer), "{word} by {workers}");
        }
    }
}
