// The orders of four and of five axes, their successors and their inverses, as tables. A static is laid down once, where a constant would be built on the
// stack at each call.
ghost use Rattle.std.specs.Prelude.{◌≡◌, ◌<◌};
ghost use Rattle.orders.specs.Chains.{exchange};
ghost use Rattle.orders.specs.Numbers.{order_count, order_of, number_of};
ghost use Rattle.orders.specs.Releases.{number_by};
ghost use Rattle.plans.specs.Promise.{count_of, next_numbers};

use crate::Axes;

// The 24 orders of four axes in dictionary order: which axis stands at each place.
static ORDERS: [[usize; 4]; 24] = [
    [0, 1, 2, 3],
    [0, 1, 3, 2],
    [0, 2, 1, 3],
    [0, 2, 3, 1],
    [0, 3, 1, 2],
    [0, 3, 2, 1],
    [1, 0, 2, 3],
    [1, 0, 3, 2],
    [1, 2, 0, 3],
    [1, 2, 3, 0],
    [1, 3, 0, 2],
    [1, 3, 2, 0],
    [2, 0, 1, 3],
    [2, 0, 3, 1],
    [2, 1, 0, 3],
    [2, 1, 3, 0],
    [2, 3, 0, 1],
    [2, 3, 1, 0],
    [3, 0, 1, 2],
    [3, 0, 2, 1],
    [3, 1, 0, 2],
    [3, 1, 2, 0],
    [3, 2, 0, 1],
    [3, 2, 1, 0],
];

// The 120 orders of five axes.
static ORDERS5: [[usize; 5]; 120] = [
    [0, 1, 2, 3, 4],
    [0, 1, 2, 4, 3],
    [0, 1, 3, 2, 4],
    [0, 1, 3, 4, 2],
    [0, 1, 4, 2, 3],
    [0, 1, 4, 3, 2],
    [0, 2, 1, 3, 4],
    [0, 2, 1, 4, 3],
    [0, 2, 3, 1, 4],
    [0, 2, 3, 4, 1],
    [0, 2, 4, 1, 3],
    [0, 2, 4, 3, 1],
    [0, 3, 1, 2, 4],
    [0, 3, 1, 4, 2],
    [0, 3, 2, 1, 4],
    [0, 3, 2, 4, 1],
    [0, 3, 4, 1, 2],
    [0, 3, 4, 2, 1],
    [0, 4, 1, 2, 3],
    [0, 4, 1, 3, 2],
    [0, 4, 2, 1, 3],
    [0, 4, 2, 3, 1],
    [0, 4, 3, 1, 2],
    [0, 4, 3, 2, 1],
    [1, 0, 2, 3, 4],
    [1, 0, 2, 4, 3],
    [1, 0, 3, 2, 4],
    [1, 0, 3, 4, 2],
    [1, 0, 4, 2, 3],
    [1, 0, 4, 3, 2],
    [1, 2, 0, 3, 4],
    [1, 2, 0, 4, 3],
    [1, 2, 3, 0, 4],
    [1, 2, 3, 4, 0],
    [1, 2, 4, 0, 3],
    [1, 2, 4, 3, 0],
    [1, 3, 0, 2, 4],
    [1, 3, 0, 4, 2],
    [1, 3, 2, 0, 4],
    [1, 3, 2, 4, 0],
    [1, 3, 4, 0, 2],
    [1, 3, 4, 2, 0],
    [1, 4, 0, 2, 3],
    [1, 4, 0, 3, 2],
    [1, 4, 2, 0, 3],
    [1, 4, 2, 3, 0],
    [1, 4, 3, 0, 2],
    [1, 4, 3, 2, 0],
    [2, 0, 1, 3, 4],
    [2, 0, 1, 4, 3],
    [2, 0, 3, 1, 4],
    [2, 0, 3, 4, 1],
    [2, 0, 4, 1, 3],
    [2, 0, 4, 3, 1],
    [2, 1, 0, 3, 4],
    [2, 1, 0, 4, 3],
    [2, 1, 3, 0, 4],
    [2, 1, 3, 4, 0],
    [2, 1, 4, 0, 3],
    [2, 1, 4, 3, 0],
    [2, 3, 0, 1, 4],
    [2, 3, 0, 4, 1],
    [2, 3, 1, 0, 4],
    [2, 3, 1, 4, 0],
    [2, 3, 4, 0, 1],
    [2, 3, 4, 1, 0],
    [2, 4, 0, 1, 3],
    [2, 4, 0, 3, 1],
    [2, 4, 1, 0, 3],
    [2, 4, 1, 3, 0],
    [2, 4, 3, 0, 1],
    [2, 4, 3, 1, 0],
    [3, 0, 1, 2, 4],
    [3, 0, 1, 4, 2],
    [3, 0, 2, 1, 4],
    [3, 0, 2, 4, 1],
    [3, 0, 4, 1, 2],
    [3, 0, 4, 2, 1],
    [3, 1, 0, 2, 4],
    [3, 1, 0, 4, 2],
    [3, 1, 2, 0, 4],
    [3, 1, 2, 4, 0],
    [3, 1, 4, 0, 2],
    [3, 1, 4, 2, 0],
    [3, 2, 0, 1, 4],
    [3, 2, 0, 4, 1],
    [3, 2, 1, 0, 4],
    [3, 2, 1, 4, 0],
    [3, 2, 4, 0, 1],
    [3, 2, 4, 1, 0],
    [3, 4, 0, 1, 2],
    [3, 4, 0, 2, 1],
    [3, 4, 1, 0, 2],
    [3, 4, 1, 2, 0],
    [3, 4, 2, 0, 1],
    [3, 4, 2, 1, 0],
    [4, 0, 1, 2, 3],
    [4, 0, 1, 3, 2],
    [4, 0, 2, 1, 3],
    [4, 0, 2, 3, 1],
    [4, 0, 3, 1, 2],
    [4, 0, 3, 2, 1],
    [4, 1, 0, 2, 3],
    [4, 1, 0, 3, 2],
    [4, 1, 2, 0, 3],
    [4, 1, 2, 3, 0],
    [4, 1, 3, 0, 2],
    [4, 1, 3, 2, 0],
    [4, 2, 0, 1, 3],
    [4, 2, 0, 3, 1],
    [4, 2, 1, 0, 3],
    [4, 2, 1, 3, 0],
    [4, 2, 3, 0, 1],
    [4, 2, 3, 1, 0],
    [4, 3, 0, 1, 2],
    [4, 3, 0, 2, 1],
    [4, 3, 1, 0, 2],
    [4, 3, 1, 2, 0],
    [4, 3, 2, 0, 1],
    [4, 3, 2, 1, 0],
];

// For each order of four axes, the numbers of the orders that the swaps 0, 1 and 2 make of it.
static NEXT: [[usize; 3]; 24] = [
    [6, 2, 1],
    [7, 4, 0],
    [12, 0, 3],
    [13, 5, 2],
    [18, 1, 5],
    [19, 3, 4],
    [0, 8, 7],
    [1, 10, 6],
    [14, 6, 9],
    [15, 11, 8],
    [20, 7, 11],
    [21, 9, 10],
    [2, 14, 13],
    [3, 16, 12],
    [8, 12, 15],
    [9, 17, 14],
    [22, 13, 17],
    [23, 15, 16],
    [4, 20, 19],
    [5, 22, 18],
    [10, 18, 21],
    [11, 23, 20],
    [16, 19, 23],
    [17, 21, 22],
];

// For each order of five axes, the numbers of the orders that the swaps 0 to 3 make of it.
static NEXT5: [[usize; 4]; 120] = [
    [24, 6, 2, 1],
    [25, 7, 4, 0],
    [26, 12, 0, 3],
    [27, 13, 5, 2],
    [28, 18, 1, 5],
    [29, 19, 3, 4],
    [48, 0, 8, 7],
    [49, 1, 10, 6],
    [50, 14, 6, 9],
    [51, 15, 11, 8],
    [52, 20, 7, 11],
    [53, 21, 9, 10],
    [72, 2, 14, 13],
    [73, 3, 16, 12],
    [74, 8, 12, 15],
    [75, 9, 17, 14],
    [76, 22, 13, 17],
    [77, 23, 15, 16],
    [96, 4, 20, 19],
    [97, 5, 22, 18],
    [98, 10, 18, 21],
    [99, 11, 23, 20],
    [100, 16, 19, 23],
    [101, 17, 21, 22],
    [0, 30, 26, 25],
    [1, 31, 28, 24],
    [2, 36, 24, 27],
    [3, 37, 29, 26],
    [4, 42, 25, 29],
    [5, 43, 27, 28],
    [54, 24, 32, 31],
    [55, 25, 34, 30],
    [56, 38, 30, 33],
    [57, 39, 35, 32],
    [58, 44, 31, 35],
    [59, 45, 33, 34],
    [78, 26, 38, 37],
    [79, 27, 40, 36],
    [80, 32, 36, 39],
    [81, 33, 41, 38],
    [82, 46, 37, 41],
    [83, 47, 39, 40],
    [102, 28, 44, 43],
    [103, 29, 46, 42],
    [104, 34, 42, 45],
    [105, 35, 47, 44],
    [106, 40, 43, 47],
    [107, 41, 45, 46],
    [6, 54, 50, 49],
    [7, 55, 52, 48],
    [8, 60, 48, 51],
    [9, 61, 53, 50],
    [10, 66, 49, 53],
    [11, 67, 51, 52],
    [30, 48, 56, 55],
    [31, 49, 58, 54],
    [32, 62, 54, 57],
    [33, 63, 59, 56],
    [34, 68, 55, 59],
    [35, 69, 57, 58],
    [84, 50, 62, 61],
    [85, 51, 64, 60],
    [86, 56, 60, 63],
    [87, 57, 65, 62],
    [88, 70, 61, 65],
    [89, 71, 63, 64],
    [108, 52, 68, 67],
    [109, 53, 70, 66],
    [110, 58, 66, 69],
    [111, 59, 71, 68],
    [112, 64, 67, 71],
    [113, 65, 69, 70],
    [12, 78, 74, 73],
    [13, 79, 76, 72],
    [14, 84, 72, 75],
    [15, 85, 77, 74],
    [16, 90, 73, 77],
    [17, 91, 75, 76],
    [36, 72, 80, 79],
    [37, 73, 82, 78],
    [38, 86, 78, 81],
    [39, 87, 83, 80],
    [40, 92, 79, 83],
    [41, 93, 81, 82],
    [60, 74, 86, 85],
    [61, 75, 88, 84],
    [62, 80, 84, 87],
    [63, 81, 89, 86],
    [64, 94, 85, 89],
    [65, 95, 87, 88],
    [114, 76, 92, 91],
    [115, 77, 94, 90],
    [116, 82, 90, 93],
    [117, 83, 95, 92],
    [118, 88, 91, 95],
    [119, 89, 93, 94],
    [18, 102, 98, 97],
    [19, 103, 100, 96],
    [20, 108, 96, 99],
    [21, 109, 101, 98],
    [22, 114, 97, 101],
    [23, 115, 99, 100],
    [42, 96, 104, 103],
    [43, 97, 106, 102],
    [44, 110, 102, 105],
    [45, 111, 107, 104],
    [46, 116, 103, 107],
    [47, 117, 105, 106],
    [66, 98, 110, 109],
    [67, 99, 112, 108],
    [68, 104, 108, 111],
    [69, 105, 113, 110],
    [70, 118, 109, 113],
    [71, 119, 111, 112],
    [90, 100, 116, 115],
    [91, 101, 118, 114],
    [92, 106, 114, 117],
    [93, 107, 119, 116],
    [94, 112, 115, 119],
    [95, 113, 117, 118],
];

// For each order of four axes, the number of the order that undoes it.
static INVERSE: [usize; 24] = [
    0, 1, 2, 4, 3, 5, 6, 7, 12, 18, 13, 19, 8, 10, 14, 20, 16, 22, 9, 11, 15, 21, 17, 23,
];

// For each order of five axes, the number of the order that undoes it.
static INVERSE5: [usize; 120] = [
    0, 1, 2, 4, 3, 5, 6, 7, 12, 18, 13, 19, 8, 10, 14, 20, 16, 22, 9, 11, 15, 21, 17, 23, 24, 25,
    26, 28, 27, 29, 48, 49, 72, 96, 73, 97, 50, 52, 74, 98, 76, 100, 51, 53, 75, 99, 77, 101, 30,
    31, 36, 42, 37, 43, 54, 55, 78, 102, 79, 103, 60, 66, 84, 108, 90, 114, 61, 67, 85, 109, 91,
    115, 32, 34, 38, 44, 40, 46, 56, 58, 80, 104, 82, 106, 62, 68, 86, 110, 92, 116, 64, 70, 88,
    112, 94, 118, 33, 35, 39, 45, 41, 47, 57, 59, 81, 105, 83, 107, 63, 69, 87, 111, 93, 117, 65,
    71, 89, 113, 95, 119,
];

// The order with a number.
pub(crate) fn order_of(axes: Axes, order: usize) -> &'static [usize]
    requires { order < order_count (count_of axes) }
    ensures { result.now ≡ order_of (count_of axes) order }
{
    match axes {
        Axes::Four => &ORDERS[order],
        Axes::Five => &ORDERS5[order],
    }
}

// The numbers of the orders that each swap makes of an order.
fn successors(axes: Axes, order: usize) -> &'static [usize]
    requires { order < order_count (count_of axes) }
    ensures { result.now ≡ next_numbers (count_of axes) order }
{
    match axes {
        Axes::Four => &NEXT[order],
        Axes::Five => &NEXT5[order],
    }
}

// The number of the order that a swap makes of an order; the count of orders where there is no such order.
// Kept: the promise that docs/PROMISES.md cites answers the count of orders where there is none, which `plan` refuses.
pub fn next_order(axes: Axes, order: usize, k: usize) -> usize
    ensures { result ≡ number_of (count_of axes) (exchange k (order_of (count_of axes) order)) }
{
    if axes.orders() <= order {
        return axes.orders();
    }
    let next = successors(axes, order);
    if next.len() <= k {
        return order;
    }
    next[k]
}

// The number of the order that undoes an order.
fn inverse(axes: Axes, order: usize) -> usize
    requires { order < order_count (count_of axes) }
    ensures { result ≡ number_by (count_of axes) 2 order }
{
    match axes {
        Axes::Four => INVERSE[order],
        Axes::Five => INVERSE5[order],
    }
}

// The release 1 number of the order that a number names by its release; the count of orders where there is no such order.
// Kept: the promise that docs/PROMISES.md cites answers the count of orders where there is none, which `plan` refuses.
pub fn number_by(axes: Axes, release: usize, order: usize) -> usize
    ensures { result ≡ number_by (count_of axes) release order }
{
    if axes.orders() <= order {
        return axes.orders();
    }
    if release == 2 {
        return inverse(axes, order);
    }
    order
}
